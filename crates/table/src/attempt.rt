// An attempt at loading the table: its next message, and what an answer makes of it. Every call takes any attempt, any
// buffers and any answer, and refuses by number.
ghost use Rattle.std.specs.Prelude.{◌≡◌, length};
ghost use Rattle.table.specs.Calls.{beginning, message_fault, due_by, offered_of, answered_of};
ghost use Rattle.table.specs.Calls.{made_of, made_to, taken_of};

use crate::judging;
use header::limits;
use header::refusal::Refusal;
use initiator::sender::Sender;
use layout::{Stage, writing};

// What an attempt comes to.
#[derive(Clone, Copy)]
pub enum Next {
    // the message of this stage is to be sent
    Send(Stage),
    // every row came back as sent, and the mark is set
    Done,
    // it failed: the row's number, 25 for the mark
    Ended(u8),
}

// The sender, and what comes next.
#[derive(Clone, Copy)]
pub struct Attempt {
    pub sender: Sender,
    pub next: Next,
}

// A message that was made and offered: its length in bytes, and the attempt then.
#[derive(Drop)]
pub struct Offered {
    pub length: usize,
    pub attempt: Attempt,
}

impl Attempt {
    // An attempt begins, with the sender that a life of the loader begins with. No message may wait there: its answer
    // could be taken for the clearing's. Where one does, the attempt's sender is one that 37 stops, so that every
    // message and every answer is refused.
    pub fn begin(sender: Sender) -> Attempt
        ensures { result ≡ beginning sender }
    {
        let sender = if sender.waiting == 0 {
            sender
        } else {
            Sender::stopped()
        };
        Attempt {
            sender,
            next: Next::Send(Stage::Clear),
        }
    }

    // The stage whose message is to be sent: 40; 37; 36 where one waits; 30 where the attempt is done or has ended; 21.
    #[tactic(auto, unfolding(crate::specs::Calls::message_fault))]
    fn due(self, start: u64, room: u64, long: usize) -> Result<Stage, Refusal>
        ensures { result ≡ due_by self.next (message_fault self start room long) }
    {
        layout::set_up(start, room)?;
        self.sender.checked()?;
        if self.sender.waiting != 0 {
            return Err(Refusal::of(Refusal::OFFERING));
        }
        let Next::Send(stage) = self.next else {
            return Err(Refusal::of(Refusal::NONE_WAITS));
        };
        if long < limits::LIMIT_BYTES {
            return Err(Refusal::of(Refusal::BUILDING));
        }
        Ok(stage)
    }
}

// The next message of an attempt, in the output, under the tag that offering asks; it then waits at the attempt's
// sender. 40; 37; 36 where a message waits; 30 where the attempt is done or has ended; 21. Behind the message the
// output stays; refused, all of it, and the attempt.
pub fn message(
    out: &mut [u8],
    attempt: Attempt,
    start: u64,
    room: u64,
    rows: &[u32; 168],
) -> Result<Offered, Refusal>
    ensures { (result ≡ offered_of (made_of attempt start room rows.now out.old)) ×
        (out.new ≡ made_to attempt start room rows.now out.old) }
{
    let stage = attempt.due(start, room, out.len())?;
    let tag = u32::from(attempt.sender.next);
    let length = writing::write(out, tag, start, room, rows, stage)?;
    // never refused: `due` asked all of it
    let sender = attempt
        .sender
        .offer(&out[..length])
        .unwrap_or(attempt.sender);
    let attempt = Attempt {
        sender,
        next: attempt.next,
    };
    Ok(Offered { length, attempt })
}

// Takes an answer to the lent message: 37, 30, 31, 32 to 35, as the sender does. Refused, the attempt is as it was;
// accepted, it goes on to its next message, is done, or has ended with the row's number, 25 for the mark.
pub fn take(
    attempt: Attempt,
    message: &[u8],
    answer: &[u8],
    rows: &[u32; 168],
) -> Result<Attempt, Refusal>
    ensures { result ≡ answered_of (taken_of attempt message.now answer.now rows.now) }
{
    let progress = attempt.sender.take(message, answer)?;
    Ok(Attempt {
        sender: progress.sender,
        next: judging::next_by(message, answer, rows, attempt.next),
    })
}
