// A night of lives over one controller: a loader loses all it knows at any moment, and with a reset of the controller
// so does that. What a program's loader is, the program says.
ghost use Rattle.std.specs.Prelude.{◌≡◌, replicate, IfOk};
ghost use Rattle.message.specs.Discovery.{discovery_bytes};
ghost use Rattle.initiator.specs.declared.sender.Sender.{Sender};
ghost use Rattle.initiator.specs.Sender.{start_of};
ghost use Rattle.channel_run.specs.Bytes.{no_bytes, datagram_in, place_of};
ghost use Rattle.channel_run.specs.Controller.{fresh_with, answering_after};
ghost use Rattle.channel_run.specs.Night.{end_of, stranger_bytes, ended_by};

use crate::controller::{Answering, Arrived, Controller};
use crate::{Channel, loader};
use initiator::sender::Sender;
use message::discovery;
use std::{fmt, io};
use tags::record::TagRecord;

// How a life ends.
#[derive(Clone, Copy, PartialEq, Eq)]
pub enum End {
    // a restart of the loader
    Restart,
    // a reset of the controller
    Reset,
    // the night is over
    Over,
}

impl End {
    // The end of this number.
    pub fn of(number: u32) -> End
        ensures { result ≡ end_of number }
    {
        match number {
            0 => End::Restart,
            1 => End::Reset,
            _ => End::Over,
        }
    }

    // The controller after a life that ends so. A reset: the record is fresh, and the other buffers hold something
    // else.
    fn leave(self, controller: &mut Controller)
        ensures { controller.new ≡ ended_by self controller.old }
    {
        match self {
            End::Reset => *controller = Controller::fresh(7),
            End::Restart | End::Over => {},
        }
    }
}

impl fmt::Display for End {
    fn fmt<W: fmt::Write>(&self, f: &mut fmt::Formatter<W>) -> fmt::Result {
        let words = match self {
            End::Restart => "restart",
            End::Reset => "reset of the controller",
            End::Over => "the night is over",
        };
        write!(f, "{words}")
    }
}

// What a program's own loader does in a night over so many words of memory.
pub trait Loader<const WORDS: usize>: Copy {
    // Its sender.
    ghost sender_of: { Self → Sender };

    // That of the next life, before it has begun: its sender is one that 37 stops.
    fn next(&self) -> Self;

    // It begins with this sender, at which none waits.
    fn begins(&mut self, sender: Sender)
        ensures { sender.waiting ≡ 0 → sender_of self.new ≡ sender };

    // A datagram has come to the controller, whose record was this before and is then; prints the rest of the line.
    fn arrived(
        &mut self,
        rt: &impl Print,
        before: TagRecord,
        then: TagRecord,
        arrived: &Arrived,
    ) -> io::Result<()>;

    // Prints how far its life came, how it ends, and the memory that it leaves.
    fn say_end(&self, rt: &impl Print, end: End, memory: &[u32; WORDS]) -> io::Result<()>;
}

// The loader, what was sent of each message, and the controller's end with the last answer to each, to the loader's
// discovery, which is 5, and to strangers', 6 and 7.
#[derive(Clone, Copy)]
pub struct Night<L, const WORDS: usize> {
    pub loader: L,
    pub requests: Channel,
    pub answering: Answering<WORDS>,
}

impl<L: Loader<WORDS>, const WORDS: usize> Night<L, WORDS> {
    // A night before its first life has begun.
    pub fn new(loader: L, memory: [u32; WORDS]) -> Self
        ensures requests { result.requests.places ≡ replicate 8 no_bytes }
        ensures controller { result.answering.controller ≡ fresh_with 0 }
        ensures memory { result.answering.memory ≡ memory.entry }
        ensures answers { result.answering.answers.places ≡ replicate 8 no_bytes }
    {
        Night {
            loader,
            requests: Channel::empty(),
            answering: Answering::fresh(memory),
        }
    }

    // Datagram i comes to the controller.
    pub fn comes(&mut self, rt: &impl Print, i: u32, datagram: &[u8]) -> io::Result<()>
        ensures requests { self.new.requests ≡ self.old.requests }
        ensures answering { self.new.answering ≡ answering_after self.old.answering i datagram.now }
    {
        let before = self.answering.controller.tags;
        let arrived = self.answering.comes(i, datagram);
        self.loader
            .arrived(rt, before, self.answering.controller.tags, &arrived)
    }

    // What was sent of message i comes.
    pub fn late(&mut self, rt: &impl Print, i: u32) -> io::Result<()>
        ensures requests { self.new.requests ≡ self.old.requests }
        ensures answering { self.new.answering
            ≡ answering_after self.old.answering i (datagram_in (place_of self.old.requests.places i)) }
    {
        let request = self.requests.get(i);
        self.comes(rt, i, request.as_slice())
    }

    // The loader asks, or its discovery comes again.
    pub fn asks(&mut self, rt: &impl Print) -> io::Result<()>
        ensures requests { self.new.requests ≡ self.old.requests }
        ensures answering { self.new.answering ≡ answering_after self.old.answering 5 discovery_bytes }
    {
        self.comes(rt, 5, &discovery::bytes())
    }

    // A stranger reads words 0 and 1, by a discovery with tag 1; another, 7, by one with tag 2.
    pub fn stranger(&mut self, rt: &impl Print, i: u32) -> io::Result<()>
        ensures requests { self.new.requests ≡ self.old.requests }
        ensures answering { self.new.answering ≡ answering_after self.old.answering i (stranger_bytes i) }
    {
        let byte0 = if i == 7 { 162 } else { 161 };
        self.comes(rt, i, &[byte0, 0, 2, 128, 0, 0, 0, 0])
    }

    // The answer to datagram i comes to the loader as that to its discovery.
    pub fn hears(&mut self, rt: &impl Print, i: u32) -> io::Result<()>
        ensures begins { (start_of (datagram_in (place_of self.old.answering.answers.places i))).sender.waiting ≡ 0
            → L.sender_of self.new.loader
            ≡ (start_of (datagram_in (place_of self.old.answering.answers.places i))).sender }
        ensures requests { self.new.requests ≡ self.old.requests }
        ensures answering { self.new.answering ≡ self.old.answering }
    {
        let moved = loader::hear(&self.answering.answers.get(i));
        self.loader.begins(moved.sender);
        println!(rt;
            ": refusal {}, next {}",
            moved.refusal.number, moved.sender.next
        )
    }

    // The life is over, and the next finds what it left: nothing is in the channel.
    pub fn ends(&mut self, rt: &impl Print, end: End) -> io::Result<()>
        ensures memory { self.new.answering.memory ≡ self.old.answering.memory }
        ensures controller { IfOk result (λ u. self.new.answering.controller
            ≡ ended_by end self.old.answering.controller) }
        ensures requests { IfOk result (λ u. self.new.requests.places ≡ replicate 8 no_bytes) }
        ensures answers { IfOk result (λ u. self.new.answering.answers.places ≡ replicate 8 no_bytes) }
    {
        self.loader.say_end(rt, end, &self.answering.memory)?;
        end.leave(&mut self.answering.controller);
        self.loader = self.loader.next();
        self.requests = Channel::empty();
        self.answering.answers = Channel::empty();
        Ok(())
    }
}
