// The training table: its set-up, an attempt at loading it, the attempt's next message, and an answer to that.
//
// What comes next is two numbers here, a stage and a row. A refused call gives the attempt back as it came, all its
// numbers; an accepted one gives those that the table's own attempt has.
ghost use Rattle.std.specs.Prelude.{◌≡◌};
ghost use Rattle.layout.specs.Layout.{set_up_fault};
ghost use Rattle.table.specs.Calls.{beginning, made_to};
ghost use Rattle.loader.specs.Training.{stage_no, attempt_of, numbers_of, table_made_of, table_taken_of};

use header::refusal::Refusal;
use initiator::sender::Sender;
use layout::Stage;
use table::attempt;
use table::attempt::{Attempt, Next};

// An attempt: its sender; what comes next, 0 to 3 the message to be sent (0 to the mark, the rows, reads of them, 24 to
// the mark), 4 done, 5 and above ended; and the row that it ended with, 25 for the mark, 0 where it has not ended.
#[repr(C)]
#[derive(Clone, Copy)]
pub struct TableAttempt {
    pub sender: Sender,
    pub stage: u8,
    pub row: u8,
}

// What a message came to: the number of its refusal (0: none), its length in bytes, and the attempt then.
#[repr(C)]
#[derive(Drop)]
pub struct TableMade {
    pub refusal: u32,
    pub length: u32,
    pub attempt: TableAttempt,
}

// What an answer came to: its refusal (number 0: none), and the attempt then.
#[repr(C)]
#[derive(Drop)]
pub struct TableTaken {
    pub refusal: Refusal,
    pub attempt: TableAttempt,
}

// The number of a message. Both types are other crates', so it is no `From`; and C's numbers stand here, whatever the
// order of the stages there.
fn stage_no(stage: Stage) -> u8
    ensures { result ≡ stage_no stage }
{
    match stage {
        Stage::Clear => 0,
        Stage::Rows => 1,
        Stage::Back => 2,
        Stage::Mark => 3,
    }
}

// The attempt that the numbers say.
impl From<TableAttempt> for Attempt {
    ghost from_gives = { λ numbers attempt. attempt ≡ attempt_of numbers };

    #[tactic(auto, unfolding(crate::specs::Training::next_from))]
    fn from(numbers: TableAttempt) -> Attempt {
        let next = match numbers.stage {
            0 => Next::Send(Stage::Clear),
            1 => Next::Send(Stage::Rows),
            2 => Next::Send(Stage::Back),
            3 => Next::Send(Stage::Mark),
            4 => Next::Done,
            _ => Next::Ended(numbers.row),
        };
        Attempt {
            sender: numbers.sender,
            next,
        }
    }
}

// An attempt by its numbers.
impl From<Attempt> for TableAttempt {
    ghost from_gives = { λ attempt numbers. numbers ≡ numbers_of attempt };

    fn from(attempt: Attempt) -> TableAttempt {
        let (stage, row) = match attempt.next {
            Next::Send(stage) => (stage_no(stage), 0),
            Next::Done => (4, 0),
            Next::Ended(row) => (5, row),
        };
        TableAttempt {
            sender: attempt.sender,
            stage,
            row,
        }
    }
}

// The refusal of a set-up, a start in bytes and a room in words: 40, or 0 for none.
pub fn charkhavo_set_up(start: u64, room: u64) -> u32
    ensures { result ≡ set_up_fault start room }
{
    match layout::set_up(start, room) {
        Ok(()) => Refusal::NONE,
        Err(refusal) => refusal.number,
    }
}

// An attempt begins, with the sender that a life of the loader begins with. Where a message waits there, 37 refuses
// every message and every answer of it.
pub fn charkhavo_attempt(sender: Sender) -> TableAttempt
    ensures { result ≡ numbers_of (beginning sender) }
{
    TableAttempt::from(Attempt::begin(sender))
}

// The attempt's next message, in the output, which then waits: 40; 37; 36 where a message waits; 30 where it is done or
// has ended; 21. Behind the message the output stays; refused, all of it.
pub fn charkhavo_table_message(
    output: &mut [u8],
    attempt: TableAttempt,
    start: u64,
    room: u64,
    rows: &[u32; 168],
) -> TableMade
    ensures { (result ≡ table_made_of attempt start room rows.now output.old)
        × (output.new ≡ made_to (attempt_of attempt) start room rows.now output.old) }
{
    match attempt::message(output, Attempt::from(attempt), start, room, rows) {
        Ok(offered) => TableMade {
            refusal: Refusal::NONE,
            length: offered.length as u32,
            attempt: TableAttempt::from(offered.attempt),
        },
        Err(refusal) => TableMade {
            refusal: refusal.number,
            length: 0,
            attempt,
        },
    }
}

// Takes an answer to the lent message: 37, 30, 31, 32 to 35. Accepted, the attempt goes on to its next message, is
// done, or has ended with the row's number, 25 for the mark.
pub fn charkhavo_table_take(
    attempt: TableAttempt,
    message: &[u8],
    answer: &[u8],
    rows: &[u32; 168],
) -> TableTaken
    ensures { result ≡ table_taken_of attempt message.now answer.now rows.now }
{
    match attempt::take(Attempt::from(attempt), message, answer, rows) {
        Ok(taken) => TableTaken {
            refusal: Refusal::of(Refusal::NONE),
            attempt: TableAttempt::from(taken),
        },
        Err(refusal) => TableTaken { refusal, attempt },
    }
}
