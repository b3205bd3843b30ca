// A record that check 1 lets by: that it is one is a fact of the type.
ghost use Rattle.std.specs.Prelude.{◌≡◌, true};
ghost use Rattle.tags.specs.Record.{record_ok, mark_of};

use crate::record::TagRecord;

// A record that check 1 lets by.
#[derive(Clone, Copy)]
pub struct Sound {
    pub tags: TagRecord,
    ghost good: { record_ok tags ≡ true },
}

impl Sound {
    // The record, where check 1 let it by.
    pub fn of(tags: TagRecord) -> Sound
        requires { record_ok tags ≡ true }
        ensures { result.tags ≡ tags }
    {
        Sound { tags }
    }

    // Word 1 of the advertisement.
    pub fn mark(self) -> u32
        ensures { result ≡ mark_of self.tags }
    {
        if self.tags.held == 0 {
            return 0;
        }
        self.tags.tag + 16
    }
}
