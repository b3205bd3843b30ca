// The building record, and which records some sequence of calls gives.
ghost use Rattle.std.specs.Prelude.{◌≡◌, ◌<◌, ◌≤◌};
ghost use Rattle.header.specs.Limits.{limit};
ghost use Rattle.building.specs.Record.{start_ok, byte0_by, fresh_ok, nops_ok, writes_ok, reads_ok, shape_ok, some_ok};
ghost use Rattle.building.specs.Record.{reachable};

use header::{Kind, limits};

// A message that is being built: begin's four, the words so far, the place of the last header (0 if none), the words of
// the all-OK answer so far, and whether it is closed. Kind and tag are numbers that can be wrong: C hands them in.
#[repr(C)]
#[derive(Clone, Copy)]
pub struct Building {
    pub kind: u32,
    pub tag: u32,
    pub wide: bool,
    pub discovery: bool,
    pub words: usize,
    pub last: usize,
    pub answer: usize,
    pub closed: bool,
}

// Whether a message can have this kind and this tag.
#[tactic(auto, unfolding(crate::specs::Record::start_ok))]
pub(crate) fn start_ok(kind: u32, tag: u32) -> bool
    ensures { result ≡ start_ok kind tag }
{
    kind < 3 && tag < limits::TAGS
}

impl Building {
    // Byte 0 of every header of the message.
    #[tactic(auto, unfolding(crate::specs::Record::byte0_by))]
    pub(crate) fn byte0(self) -> u32
        requires { self.tag < 16 }
        ensures value { result ≡ byte0_by self }
        ensures below { result < 256 }
    {
        header::byte0_from(self.tag, Kind::from(self.kind), self.wide, self.discovery)
    }

    // Whether the record is one with nothing added, but for begin's four.
    #[tactic(auto, unfolding(crate::specs::Record::fresh_ok))]
    fn fresh_ok(self) -> bool
        ensures { result ≡ fresh_ok self }
    {
        self.last == 0 && self.answer == 0 && !self.closed
    }

    // Whether the record is one with something added.
    #[tactic(auto, unfolding(crate::specs::Record::some_ok))]
    fn some_ok(self) -> bool
        requires { self.tag < 16 }
        ensures { result ≡ some_ok self }
    {
        if limits::LIMIT < self.words
            || self.answer < 1
            || limits::LIMIT < self.answer
            || self.words <= self.last
        {
            return false;
        }
        let byte0 = self.byte0();
        let added = Added {
            address: header::address_words(byte0),
            words: self.words,
            last: self.last,
            answer: self.answer,
        };
        added.shape_ok(header::kind_of(byte0))
    }

    // Whether some sequence of calls gives this record.
    #[tactic(auto, unfolding(crate::specs::Record::reachable, crate::specs::Record::start_ok))]
    pub(crate) fn reached(self) -> bool
        ensures { result ≡ reachable self }
    {
        if !start_ok(self.kind, self.tag) {
            return false;
        }
        if self.words == 0 {
            return self.fresh_ok();
        }
        self.some_ok()
    }
}

// What was added, within the limit: the words of each address, the words so far, the place of the last header, the
// words of the all-OK answer.
#[derive(Clone, Copy)]
struct Added {
    address: usize,
    words: usize,
    last: usize,
    answer: usize,
    ghost narrow: { address < 3 },
    ghost within: { words ≤ limit },
    ghost some: { last < words },
    ghost answered: { 1 ≤ answer },
    ghost answer_within: { answer ≤ limit },
}

impl Added {
    // Whether NOPs can come to this.
    #[tactic(auto, unfolding(crate::specs::Record::nops_ok))]
    fn nops_ok(self) -> bool
        ensures { result ≡ nops_ok self.words self.last self.answer }
    {
        self.answer == self.words && self.words - self.last <= 3
    }

    // The same of writes.
    #[tactic(auto, unfolding(crate::specs::Record::writes_ok))]
    fn writes_ok(self) -> bool
        ensures { result ≡ writes_ok self.address self.words self.last self.answer }
    {
        if self.words - self.last < 2 + self.address {
            return false;
        }
        if self.answer == 1 {
            return self.last == 0;
        }
        (self.answer - 1) * (2 + self.address) <= self.last
    }

    // The same of reads.
    #[tactic(auto, unfolding(crate::specs::Record::reads_ok))]
    fn reads_ok(self) -> bool
        ensures { result ≡ reads_ok self.address self.words self.last self.answer }
    {
        let size = 1 + self.address;
        self.words - self.last == size
            && self.words % size == 0
            && 2 * (self.words / size) <= self.answer
    }

    // The same of commands of this kind.
    fn shape_ok(self, kind: Kind) -> bool
        ensures { result ≡ shape_ok kind self.address self.words self.last self.answer }
    {
        match kind {
            Kind::Nop => self.nops_ok(),
            Kind::Write => self.writes_ok(),
            Kind::Read => self.reads_ok(),
            Kind::Response => false,
        }
    }
}
