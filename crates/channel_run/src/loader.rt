// The loader's end: what is sent of a message, and how what the sender's calls gave is printed.
ghost use Rattle.std.specs.Prelude.{◌≡◌};
ghost use Rattle.initiator.specs.Sender.{start_of, take_of};
ghost use Rattle.channel_run.specs.Bytes.{datagram_in};
ghost use Rattle.channel_run.specs.Loader.{sent_of, offered, took};

use crate::Bytes;
use header::refusal::Refusal;
use initiator::outcome;
use initiator::sender::{Moved, Sender, Taken};
use std::fmt;

// The answer to its discovery comes to a loader: the refusal, and the sender that it begins with, which 37 stops where
// the answer is refused.
pub fn hear(answer: &Bytes) -> Moved
    ensures { result ≡ start_of (datagram_in answer.now) }
{
    Moved::of(Sender::discovered(answer.as_slice()), Sender::stopped())
}

// What is sent of a message: nothing where it does not wait.
pub fn send(s: Sender, message: &Bytes) -> Bytes
    ensures { result ≡ sent_of s message.now }
{
    match s.send(message.as_slice()) {
        Ok(part) => Bytes {
            bytes: message.bytes,
            n: part.len(),
        },
        Err(_) => Bytes {
            bytes: message.bytes,
            n: 0,
        },
    }
}

// A refusal (number 0: none), and the sender then: its next tag, how many wait, and which of the three younger ones are
// answered.
#[derive(Clone, Copy)]
pub struct State {
    pub refusal: Refusal,
    pub sender: Sender,
}

impl fmt::Display for State {
    fn fmt<W: fmt::Write>(&self, f: &mut fmt::Formatter<W>) -> fmt::Result {
        let s = self.sender;
        write!(
            f,
            "refusal {}, next {}, waiting {}, answered {} {} {}",
            self.refusal.number,
            s.next,
            s.waiting,
            u8::from(s.second),
            u8::from(s.third),
            u8::from(s.fourth)
        )
    }
}

// What an offer came to, and what is sent of its message then.
#[derive(Clone, Copy)]
pub struct Offered {
    pub state: State,
    pub sent: Bytes,
}

impl fmt::Display for Offered {
    fn fmt<W: fmt::Write>(&self, f: &mut fmt::Formatter<W>) -> fmt::Result {
        write!(
            f,
            "{}, sends{}",
            self.state,
            show::Bytes(self.sent.as_slice())
        )
    }
}

// A message is offered.
pub fn offer(s: Sender, message: &Bytes) -> Offered
    ensures { result ≡ offered s message.now }
{
    let moved = Moved::of(s.offer(message.as_slice()), s);
    Offered {
        state: State {
            refusal: moved.refusal,
            sender: moved.sender,
        },
        sent: send(moved.sender, message),
    }
}

// What taking an answer came to, and how many messages ended.
#[derive(Clone, Copy)]
pub struct Took {
    pub state: State,
    pub ended: u8,
}

impl fmt::Display for Took {
    fn fmt<W: fmt::Write>(&self, f: &mut fmt::Formatter<W>) -> fmt::Result {
        write!(f, "{}, ended {}", self.state, self.ended)
    }
}

// An answer comes to the sender, to which this message is lent.
pub fn take(s: Sender, message: &Bytes, answer: &Bytes) -> Took
    ensures { result ≡ took (take_of s (datagram_in message.now) (datagram_in answer.now)) }
{
    let taken = Taken::of(s.take(message.as_slice(), answer.as_slice()), s);
    Took {
        state: State {
            refusal: taken.refusal,
            sender: taken.sender,
        },
        ended: taken.ended,
    }
}

// The outcome of message i, which has one command: how many commands its answer answers, and the data of a read.
#[derive(Clone, Copy)]
pub struct Outcome {
    pub i: u32,
    pub message: Bytes,
    pub answer: Bytes,
}

impl fmt::Display for Outcome {
    fn fmt<W: fmt::Write>(&self, f: &mut fmt::Formatter<W>) -> fmt::Result {
        let message = self.message.as_slice();
        let answer = self.answer.as_slice();
        let answered = outcome::answered(message, answer);
        let part = outcome::read_data(message, answer, 0);
        write!(
            f,
            "outcome {}: answered {answered}, data{}",
            self.i,
            show::Bytes(part)
        )
    }
}
