// The sender and its calls, each with a line that says what it gave.
use header::refusal::Refusal;
use initiator::sender::{Moved, Sender, Taken};
use std::{fmt, io};

// A refusal, 0 for none.
#[derive(Clone, Copy)]
struct Number(Refusal);

impl fmt::Display for Number {
    fn fmt<W: fmt::Write>(&self, f: &mut fmt::Formatter<W>) -> fmt::Result {
        let Refusal { number, at } = self.0;
        write!(f, "refusal {number} at {at}")
    }
}

// A sender: its next tag, how many wait, and which of them are answered.
#[derive(Clone, Copy)]
struct State(Sender);

impl fmt::Display for State {
    fn fmt<W: fmt::Write>(&self, f: &mut fmt::Formatter<W>) -> fmt::Result {
        let s = self.0;
        write!(f, "next {}, waiting {}", s.next, s.waiting)?;
        if s.second {
            write!(f, ", second answered")?;
        }
        if s.third {
            write!(f, ", third answered")?;
        }
        if s.fourth {
            write!(f, ", fourth answered")?;
        }
        Ok(())
    }
}

// The sender that a call finds, which leaves another.
#[derive(Drop)]
pub(crate) struct Run<'a, P: Print> {
    pub(crate) rt: &'a P,
    pub(crate) sender: Sender,
}

impl<P: Print> Run<'_, P> {
    // What an offer or a discovery gave.
    fn moves(&mut self, label: &str, moved: Moved) -> io::Result<()> {
        self.sender = moved.sender;
        println!(self.rt;
            "{label}: {}, {}",
            Number(moved.refusal),
            State(moved.sender)
        )
    }

    pub(crate) fn offers(&mut self, label: &str, message: &[u8]) -> io::Result<()> {
        self.moves(label, Moved::of(self.sender.offer(message), self.sender))
    }

    // The answer to the fixed discovery.
    pub(crate) fn discovers(&mut self, label: &str, answer: &[u8]) -> io::Result<()> {
        let found = Sender::discovered(answer);
        self.moves(label, Moved::of(found, Sender::stopped()))
    }

    // A send: its refusal, and how many bytes it hands back.
    pub(crate) fn sends(&self, label: &str, message: &[u8]) -> io::Result<()> {
        let (refusal, bytes) = match self.sender.send(message) {
            Ok(part) => (Refusal::of(Refusal::NONE), part.len()),
            Err(refusal) => (refusal, 0),
        };
        println!(self.rt; "{label}: {}, bytes {bytes}", Number(refusal))
    }

    pub(crate) fn takes(&mut self, label: &str, message: &[u8], answer: &[u8]) -> io::Result<()> {
        let taken = Taken::of(self.sender.take(message, answer), self.sender);
        self.sender = taken.sender;
        let refusal = Number(taken.refusal);
        println!(self.rt;
            "{label}: {refusal}, ended {}, {}",
            taken.ended,
            State(taken.sender)
        )
    }
}
