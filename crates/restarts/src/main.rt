// "Now the eleven": twelve lives of a loader in one night over one controller, on the real functions of both ends. The
// loader loses all it knows at any moment, asks by discovery and begins its list, tagged anew, from its first message;
// each life has a list of its own. Lives die before they have asked, before they are answered, with nothing offered,
// with one message waiting, with four, and after their last; the controller is reset once, and with a fresh one the
// loader begins without asking. In every life something is lost, comes twice and crosses; one that offers nothing has
// only discoveries and their answers for it. Prints what each call gave, and at the end of each life how far it came,
// and the memory that it leaves.
//
// It is the night of crates/eleven (specs/Eleven.antt): the lines `life` show its figures, and lives 4, 9 and 12 are
// played event for event. In 1, 6 and 11 some messages and answers come once more than there, in 11 the second message
// early; in 8, of which none arrives there, two come early, one of them twice, and are refused; in 2, 3, 5, 7 and 10
// more discoveries come, and in 5, 7 and 10 more answers to them reach the loader. All outputs have one length here,
// and other words fill the stored answers after the reset.
#![tactic(auto)]

use channel_run::controller::Arrived;
use channel_run::loader::Outcome;
use channel_run::night::{End, Loader, Night};
use channel_run::{Bytes, Channel, loader};
use initiator::sender::Sender;
use std::{fmt, io};
use tags::record::TagRecord;

mod messages;
mod script;

use script::Event;

// The loader of a life: the life's number, its sender, the tag of its first message, and how many of its messages are
// finished, and how many carried out, modulo 256.
#[derive(Clone, Copy)]
struct Life {
    number: u32,
    sender: Sender,
    first: u32,
    done: u8,
    carried: u8,
}

impl Life {
    // Before it has begun: "Nothing sent before a restart arrives after it, nor any answer to it".
    fn new(number: u32) -> Life {
        Life {
            number,
            sender: Sender::stopped(),
            first: 0,
            done: 0,
            carried: 0,
        }
    }

    fn message(&self, i: u32) -> Bytes {
        messages::compose(self.number, self.first, i)
    }

    // Message i is sent.
    fn sends(&self, requests: &mut Channel, i: u32) {
        requests.put(i, loader::send(self.sender, &self.message(i)));
    }

    // It is offered, and sent.
    fn offers(&mut self, rt: &impl Print, requests: &mut Channel, i: u32) -> io::Result<()> {
        let offered = loader::offer(self.sender, &self.message(i));
        self.sender = offered.state.sender;
        requests.put(i, offered.sent);
        println!(rt; ": {offered}")
    }

    // The answer to datagram i comes to the sender. With an answer to no message the oldest is lent. The outcomes of
    // the messages that ended, the oldest first.
    fn takes(&mut self, rt: &impl Print, answers: &Channel, i: u32) -> io::Result<()> {
        let done = u32::from(self.done);
        let lent = self.message(if i < 5 { i } else { done });
        let took = loader::take(self.sender, &lent, &answers.get(i));
        println!(rt; ": {took}")?;
        for i in done..done + u32::from(took.ended) {
            let outcome = Outcome {
                i,
                message: self.message(i),
                answer: answers.get(i),
            };
            println!(rt; "  {outcome}")?;
        }
        self.sender = took.state.sender;
        self.done = self.done.wrapping_add(took.ended);
        Ok(())
    }
}

// How far it came.
impl fmt::Display for Life {
    fn fmt<W: fmt::Write>(&self, f: &mut fmt::Formatter<W>) -> fmt::Result {
        if self.sender.next > 15 {
            return write!(f, "{}: did not begin", self.number);
        }
        write!(
            f,
            "{}: began with tag {}, offered {}, carried out {}, finished {}",
            self.number,
            self.first,
            u32::from(self.done) + u32::from(self.sender.waiting),
            self.carried,
            self.done
        )
    }
}

impl Loader<3> for Life {
    ghost sender_of = { λ life. life.sender };

    fn next(&self) -> Life {
        Life::new(self.number % 256 + 1)
    }

    fn begins(&mut self, sender: Sender) {
        self.sender = sender;
        self.first = u32::from(sender.next);
    }

    // One more is carried out where the record then is another.
    fn arrived(
        &mut self,
        rt: &impl Print,
        before: TagRecord,
        then: TagRecord,
        arrived: &Arrived,
    ) -> io::Result<()> {
        if before.held != then.held || before.tag != then.tag {
            self.carried = self.carried.wrapping_add(1);
        }
        println!(rt; ": {arrived}:{}", show::Bytes(arrived.answer.as_slice()))
    }

    fn say_end(&self, rt: &impl Print, end: End, memory: &[u32; 3]) -> io::Result<()> {
        println!(rt; "{self}; {end}; memory{}", show::Words(memory))
    }
}

// The loader begins as one of a fresh pair.
fn fresh(rt: &impl Print, life: &mut Life) -> io::Result<()> {
    life.begins(Sender::fresh());
    println!(rt; ": next {}", life.sender.next)
}

fn play(rt: &impl Print, night: &mut Night<Life, 3>, event: Event) -> io::Result<()> {
    match event {
        Event::Offer(i) => night.loader.offers(rt, &mut night.requests, i),
        Event::Comes(i) => night.late(rt, i),
        Event::Again(i) => {
            night.loader.sends(&mut night.requests, i);
            night.late(rt, i)
        }
        Event::Answer(i) => night.loader.takes(rt, &night.answering.answers, i),
        Event::Asks | Event::Discovery => night.asks(rt),
        Event::Stranger(i) => night.stranger(rt, i),
        Event::Hears(i) => night.hears(rt, i),
        Event::Fresh => fresh(rt, &mut night.loader),
        Event::Ends(end) => night.ends(rt, end),
    }
}

// Last summer's words stand in memory.
fn night(rt: &impl Print) -> io::Result<()> {
    let mut night = Night::new(Life::new(1), [0x51, 0x52, 0x53]);
    for event in script::NIGHT.split_whitespace().filter_map(Event::read) {
        print!(rt; "{event}")?;
        play(rt, &mut night, event)?;
    }
    Ok(())
}

fn main() {
    let _printed = night(&show::Out);
}
