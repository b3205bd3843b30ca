// The controller's end: what it holds, a datagram that comes to it, and its answers in the channel.
ghost use Rattle.std.specs.Prelude.{◌≡◌, replicate};
ghost use Rattle.channel_run.specs.Bytes.{no_bytes};
ghost use Rattle.channel_run.specs.Controller.{fresh_with, after_in, held_by, arrived_by};
ghost use Rattle.channel_run.specs.Controller.{answering_after};

use crate::{Bytes, Channel};
use completer::serving;
use header::limits;
use header::refusal::Refusal;
use std::fmt;
use tags::record::TagRecord;

#[derive(Clone, Copy)]
pub struct Controller {
    pub stored: [u32; TagRecord::STORED],
    pub kept: [u8; TagRecord::KEPT],
    pub tags: TagRecord,
}

// What a datagram came to: its refusal (number 0: none), and the answer.
#[derive(Clone, Copy)]
pub struct Arrived {
    pub refusal: Refusal,
    pub answer: Bytes,
}

impl fmt::Display for Arrived {
    fn fmt<W: fmt::Write>(&self, f: &mut fmt::Formatter<W>) -> fmt::Result {
        write!(
            f,
            "refusal {}, bytes {}",
            self.refusal.number, self.answer.n
        )
    }
}

impl Controller {
    // With a fresh record, and this byte throughout its buffers.
    pub fn fresh(byte: u8) -> Controller
        ensures { result ≡ fresh_with byte }
    {
        Controller {
            stored: [16843009 * u32::from(byte); TagRecord::STORED],
            kept: [byte; TagRecord::KEPT],
            tags: TagRecord::fresh(),
        }
    }

    // A datagram comes to it, over this memory.
    pub fn serve(&mut self, memory: &mut [u32], datagram: &[u8]) -> Arrived
        ensures arrived { result ≡ arrived_by (after_in memory.old self.old datagram.now) }
        ensures held { self.new ≡ held_by (after_in memory.old self.old datagram.now).controller }
        ensures memory { memory.new ≡ (after_in memory.old self.old datagram.now).controller.memory }
    {
        let mut bytes = [0; limits::LIMIT_BYTES];
        let served = serving::serve(
            memory,
            &mut self.stored,
            &mut self.kept,
            &mut bytes,
            &mut self.tags,
            datagram,
        );
        let (refusal, n) = match served {
            Ok(n) => (Refusal::of(Refusal::NONE), n),
            Err(refusal) => (refusal, 0),
        };
        Arrived {
            refusal,
            answer: Bytes { bytes, n },
        }
    }
}

// The controller over its memory, and the channel with the last answer to each datagram.
#[derive(Clone, Copy)]
pub struct Answering<const WORDS: usize> {
    pub controller: Controller,
    pub memory: [u32; WORDS],
    pub answers: Channel,
}

impl<const WORDS: usize> Answering<WORDS> {
    // A fresh controller over this memory.
    pub fn fresh(memory: [u32; WORDS]) -> Self
        ensures controller { result.controller ≡ fresh_with 0 }
        ensures memory { result.memory ≡ memory.entry }
        ensures answers { result.answers.places ≡ replicate 8 no_bytes }
    {
        Answering {
            controller: Controller::fresh(0),
            memory,
            answers: Channel::empty(),
        }
    }

    // Datagram i comes to the controller.
    pub fn comes(&mut self, i: u32, datagram: &[u8]) -> Arrived
        ensures arrived { result ≡ arrived_by (after_in self.old.memory self.old.controller datagram.now) }
        ensures then { self.new ≡ answering_after self.old i datagram.now }
    {
        let arrived = self.controller.serve(&mut self.memory, datagram);
        self.answers.put(i, arrived.answer);
        arrived
    }
}
