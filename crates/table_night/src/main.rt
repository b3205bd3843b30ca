// The training table over a bad channel, with eleven restarts: twelve lives of a loader over one controller, on the
// real functions of both ends. Each life has rows of its own and makes one attempt, from the clearing on. Messages and
// answers are lost, come twice and come late; lives die before they have asked, before they have heard, and while each
// of the four messages waits, lost or carried out; the controller is reset once. In the eleventh life a hand spoils a
// word of row 7 behind the writes. Prints what each call gave, and at the end of each life what its attempt came to,
// the mark, and the 24 rows.
//
// Word j of row r of life n is n, r and j, two digits each (hexadecimal), behind the row's own number; so a row tells
// whose it is. Wherever the mark is 18, which is 24, all rows under it are of one life.
#![tactic(auto)]

use channel_run::controller::Arrived;
use channel_run::night::{End, Loader, Night};
use channel_run::{Bytes, Channel, loader};
use header::limits;
use header::refusal::Refusal;
use initiator::sender::Sender;
use layout::Stage;
use std::{fmt, io};
use table::attempt;
use table::attempt::{Attempt, Next};
use tags::record::TagRecord;

mod rows;
mod script;

use script::Event;

// The table stands behind 16 words, and one word is behind it.
const START: u64 = 64;

const ROOM: u64 = 194;

// The loader of a life: the life's number, and its attempt.
#[derive(Clone, Copy)]
struct Life {
    number: u32,
    attempt: Attempt,
}

// The number of the message that comes next; 4 where none does.
fn number(next: Next) -> u32 {
    match next {
        Next::Send(stage) => stage as u32,
        Next::Done | Next::Ended(_) => 4,
    }
}

impl Life {
    // Before it has begun.
    fn new(number: u32) -> Life {
        Life {
            number,
            attempt: Attempt::begin(Sender::stopped()),
        }
    }

    // The next message of the attempt is given, and sent.
    fn gives(&mut self, rt: &impl Print, requests: &mut Channel) -> io::Result<()> {
        let mut bytes = [0; limits::LIMIT_BYTES];
        let words = rows::words_of(self.number);
        let (refusal, n) = match attempt::message(&mut bytes, self.attempt, START, ROOM, &words) {
            Ok(offered) => {
                self.attempt = offered.attempt;
                (Refusal::NONE, offered.length)
            }
            Err(refusal) => (refusal.number, 0),
        };
        let sent = loader::send(self.attempt.sender, &Bytes { bytes, n });
        requests.put(number(self.attempt.next), sent);
        println!(rt; ": refusal {refusal}, bytes {n}")
    }

    // This answer comes to the loader, which takes it for one to the message that waits.
    fn takes(&mut self, rt: &impl Print, requests: &Channel, answer: Bytes) -> io::Result<()> {
        let taken = attempt::take(
            self.attempt,
            requests.get(number(self.attempt.next)).as_slice(),
            answer.as_slice(),
            &rows::words_of(self.number),
        );
        let refusal = match taken {
            Ok(attempt) => {
                self.attempt = attempt;
                Refusal::NONE
            }
            Err(refusal) => refusal.number,
        };
        println!(rt; ": refusal {refusal}, {}", State(self.attempt.next))
    }
}

// What an attempt came to.
#[derive(Clone, Copy)]
struct State(Next);

impl fmt::Display for State {
    fn fmt<W: fmt::Write>(&self, f: &mut fmt::Formatter<W>) -> fmt::Result {
        match self.0 {
            Next::Send(Stage::Clear) => write!(f, "clearing"),
            Next::Send(Stage::Rows) => write!(f, "writing the rows"),
            Next::Send(Stage::Back) => write!(f, "reading them back"),
            Next::Send(Stage::Mark) => write!(f, "setting the mark"),
            Next::Done => write!(f, "done"),
            Next::Ended(row) => write!(f, "ended with {row}"),
        }
    }
}

// What its attempt came to.
impl fmt::Display for Life {
    fn fmt<W: fmt::Write>(&self, f: &mut fmt::Formatter<W>) -> fmt::Result {
        if self.attempt.sender.next > 15 {
            return write!(f, "{}, did not begin", self.number);
        }
        write!(f, "{}, {}", self.number, State(self.attempt.next))
    }
}

impl Loader<210> for Life {
    ghost sender_of = { λ life. life.attempt.sender };

    fn next(&self) -> Life {
        Life::new(self.number % 256 + 1)
    }

    fn begins(&mut self, sender: Sender) {
        self.attempt = Attempt::begin(sender);
    }

    fn arrived(
        &mut self,
        rt: &impl Print,
        _before: TagRecord,
        _then: TagRecord,
        arrived: &Arrived,
    ) -> io::Result<()> {
        println!(rt; ": {arrived}")
    }

    // Of the memory, the mark and the rows.
    fn say_end(&self, rt: &impl Print, end: End, memory: &[u32; 210]) -> io::Result<()> {
        println!(rt; "{self}; {end}; mark {:08x}", memory[208])?;
        rows::say(rt, memory)
    }
}

fn play(rt: &impl Print, night: &mut Night<Life, 210>, event: Event) -> io::Result<()> {
    match event {
        Event::Message => night.loader.gives(rt, &mut night.requests),
        Event::Comes(i) => night.late(rt, i),
        Event::Answer(i) => night
            .loader
            .takes(rt, &night.requests, night.answering.answers.get(i)),
        Event::Asks => night.asks(rt),
        Event::Stranger(i) => night.stranger(rt, i),
        Event::Hears(i) => night.hears(rt, i),
        // one of a fresh pair
        Event::Fresh => {
            night.loader.begins(Sender::fresh());
            println!(rt)
        }
        // the last word of row 7
        Event::Spoils => {
            night.answering.memory[71] = 0;
            println!(rt)
        }
        Event::Ends(end) => night.ends(rt, end),
    }
}

// Last summer's words stand in memory, and the mark is not 24.
fn night(rt: &impl Print) -> io::Result<()> {
    let mut night = Night::new(Life::new(1), [0x51; 210]);
    for event in script::NIGHT.split_whitespace().filter_map(Event::read) {
        print!(rt; "{event}")?;
        play(rt, &mut night, event)?;
    }
    Ok(())
}

fn main() {
    let _printed = night(&show::Out);
}
