// The rule of tags: what a message's tag says against the record.
ghost use Rattle.std.specs.Prelude.{◌≡◌, ◌<◌};
ghost use Rattle.header.specs.Limits.{tag_count};
ghost use Rattle.tags.specs.Record.{holds};
ghost use Rattle.tags.specs.Rule.{expected, rule_of};

use crate::sound::Sound;
use header::limits;
use header::refusal::Refusal;

// What is to be done about a datagram that is not refused. A repeat is one of this tag.
#[derive(Clone, Copy)]
pub enum Verdict {
    New,
    Repeat(u32),
    Discovery,
}

impl Sound {
    // Whether a tag is one of those that are held: so far back from the newest.
    fn holds(self, tag: u32) -> bool
        requires { tag < tag_count }
        ensures { result ≡ holds self.tags tag }
    {
        if self.tags.held == 0 {
            return false;
        }
        (self.tags.tag + limits::TAGS - tag) % limits::TAGS < self.tags.held
    }

    // Whether a tag is new: 0 for a fresh record, else the one after the newest.
    fn expected(self, tag: u32) -> bool
        ensures { result ≡ expected self.tags tag }
    {
        if self.tags.held == 0 {
            return tag == 0;
        }
        tag == header::next_tag(self.tags.tag)
    }

    // The verdict on a well-formed message of this byte 0, by its tag. No tag is both new and held, so that a new one,
    // the most common, is asked for first.
    pub fn rule(self, byte0: u32) -> Result<Verdict, Refusal>
        ensures { result ≡ rule_of self.tags byte0 }
    {
        if header::discovery(byte0) {
            return Ok(Verdict::Discovery);
        }
        let tag = header::tag(byte0);
        if self.expected(tag) {
            return Ok(Verdict::New);
        }
        if self.holds(tag) {
            return Ok(Verdict::Repeat(tag));
        }
        Err(Refusal::of(Refusal::OUT_OF_STEP))
    }
}
