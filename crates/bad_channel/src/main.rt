// A bad night between the two ends, on their real functions, with four messages in flight. A round offers four
// messages, and a fifth, which is refused. The first sends are lost; then two messages come early, all four arrive,
// each comes again, older ones come late, and a discovery comes. The answers come back crossed, with old ones in
// between. The fifth is offered again when two have ended, and the last answer ends three. Five rounds, 25 messages:
// tags go past 15, once with four in flight. Prints what each call gave, the outcomes in order of tag, and the memory
// at the end.
#![tactic(auto)]

use channel_run::controller::{Answering, Arrived};
use channel_run::loader::Outcome;
use channel_run::{Bytes, loader};
use initiator::sender::Sender;
use message::discovery;
use std::io;

mod messages;
mod round;

use round::{Event, ROUND};

// The two ends, and how many messages have ended, modulo 256.
#[derive(Clone, Copy)]
struct Ends {
    sender: Sender,
    done: u8,
    answering: Answering<8>,
}

// What is printed of an arrival at the controller.
fn say(rt: &impl Print, arrived: &Arrived) -> io::Result<()> {
    println!(rt; ": {arrived}:{}", show::Bytes(arrived.answer.as_slice()))
}

impl Ends {
    fn dusk() -> Ends {
        Ends {
            sender: Sender::fresh(),
            done: 0,
            answering: Answering::fresh([0; 8]),
        }
    }

    // Message i is offered, and sent; that send is lost.
    fn offers(&mut self, rt: &impl Print, i: u32) -> io::Result<()> {
        let offered = loader::offer(self.sender, &messages::compose(i));
        self.sender = offered.state.sender;
        println!(rt; ": {offered}")
    }

    // A datagram of message i comes to the controller.
    fn arrives(&mut self, rt: &impl Print, i: u32, datagram: Bytes) -> io::Result<()> {
        let arrived = self.answering.comes(i, datagram.as_slice());
        say(rt, &arrived)
    }

    // A discovery comes, and its answer comes to the sender.
    fn discovers(&mut self, rt: &impl Print, lent: u32) -> io::Result<()> {
        let end = &mut self.answering;
        let arrived = end.controller.serve(&mut end.memory, &discovery::bytes());
        say(rt, &arrived)?;
        print!(rt; "its answer")?;
        self.takes(rt, lent, arrived.answer)
    }

    // An answer comes to the sender, to which message `lent` is lent, and the outcomes of the messages that end, the
    // oldest first.
    fn takes(&mut self, rt: &impl Print, lent: u32, answer: Bytes) -> io::Result<()> {
        let took = loader::take(self.sender, &messages::compose(lent), &answer);
        println!(rt; ": {took}")?;
        let done = u32::from(self.done);
        for i in done..done + u32::from(took.ended) {
            let outcome = Outcome {
                i,
                message: messages::compose(i),
                answer: self.answering.answers.get(i),
            };
            println!(rt; "{outcome}")?;
        }
        self.sender = took.state.sender;
        self.done = self.done.wrapping_add(took.ended);
        Ok(())
    }

    // An event of message i. An answer to no message that waits comes with the oldest lent.
    fn play(&mut self, rt: &impl Print, event: Event, i: u32) -> io::Result<()> {
        let oldest = u32::from(self.done);
        let answer = self.answering.answers.get(i);
        match event {
            Event::Offer | Event::FifthOffer => self.offers(rt, i),
            Event::Early | Event::Arrives | Event::Again => {
                let sent = loader::send(self.sender, &messages::compose(i));
                self.arrives(rt, i, sent)
            }
            Event::Late => self.arrives(rt, i, messages::compose(i)),
            Event::Discovery => self.discovers(rt, oldest),
            Event::Answer | Event::AnswerAgain => self.takes(rt, i, answer),
            Event::OldAnswer => self.takes(rt, oldest, answer),
        }
    }
}

// Five rounds. No message comes that is older than the first.
fn rounds(rt: &impl Print) -> io::Result<()> {
    let mut ends = Ends::dusk();
    for round in 0..5u8 {
        for (event, ahead) in ROUND {
            if let Ok(i) = u32::try_from(5 * i32::from(round) + i32::from(ahead)) {
                print!(rt; "{event} {i}")?;
                ends.play(rt, event, i)?;
            }
        }
    }
    println!(rt; "memory{}", show::Words(&ends.answering.memory))
}

fn main() {
    let _printed = rounds(&show::Out);
}
