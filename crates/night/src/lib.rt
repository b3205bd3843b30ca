// The replay of a recorded night. A controller of its own serves the records in turn, and each gives a line of text;
// whoever reads the records and writes the lines out needs to know no more.
#![tactic(auto)]

ghost use Rattle.std.specs.Prelude.{◌≤◌, ◌≡◌, ◌≢◌, true, length, IfErr};
ghost use Rattle.completer.specs.Settling.{gave};
ghost use Rattle.night.specs.Text.{tag_text, Wrote};
ghost use Rattle.night.specs.Night.{record_bytes, after_record, whole_turn, turn_of, at_first};
ghost use Rattle.night.specs.Night.{controller_of, leaves, left_by};

use completer::serving;
use header::limits;
use header::refusal::Refusal;
use tags::record::TagRecord;

mod text;

pub use text::Line;

// The bytes of a record: its length, and the most bytes of a message.
pub const RECORD: usize = 4 + limits::LIMIT_BYTES;

// The bytes of a line: 74 are enough for three numbers of 64 bits and the words between them.
pub const LINE: usize = 80;

// The controller that the night is played to: memory, stored answers, kept requests and record.
#[derive(Drop)]
pub struct Night {
    memory: [u32; 1024],
    stored: [u32; TagRecord::STORED],
    kept: [u8; TagRecord::KEPT],
    tags: TagRecord,
}

impl Night {
    // "It starts fresh over 1,024 zero words".
    pub fn start() -> Night
        ensures { controller_of result ≡ at_first }
    {
        Night {
            memory: [0; 1024],
            stored: [0; TagRecord::STORED],
            kept: [0; TagRecord::KEPT],
            tags: TagRecord::fresh(),
        }
    }

    // A whole record served: the bytes sent.
    fn serve(&mut self, got: &[u8], output: &mut [u8]) -> Result<usize, Refusal>
        requires { record_bytes ≤ length got.now }
        ensures leaves { gave result (controller_of self.new) output.new
            ≡ after_record (controller_of self.old) output.old got.now }
        ensures refused { IfErr result (λ r. r.number ≢ 0) }
    {
        let n = word::word_at(got, 0) as usize;
        if n > limits::LIMIT_BYTES {
            return Err(Refusal::of(Refusal::LENGTH));
        }
        serving::serve(
            &mut self.memory,
            &mut self.stored,
            &mut self.kept,
            output,
            &mut self.tags,
            &got[4..4 + n],
        )
    }

    // Record k, a whole one: served, and its line.
    fn whole(&mut self, k: u64, got: &[u8], line: &mut Line)
        requires { record_bytes ≤ length got.now }
        ensures { leaves (controller_of self.new) true line.new.length line.new.bytes
            ≡ left_by (whole_turn (controller_of self.old) k got.now) line.old.bytes }
    {
        let mut output = [0u8; limits::LIMIT_BYTES];
        match self.serve(got, &mut output) {
            Ok(sent) => line.sent(k, sent / 4),
            Err(refusal) => line.refused(k, refusal),
        }
    }

    // A turn: what was got of record k, whatever its bytes and length, and whether records may follow. A whole record,
    // or what begins with one, is served; a shorter one is named as short and ends the night, and so does nothing. The
    // line's other bytes stay.
    pub fn play(&mut self, k: u64, got: &[u8], line: &mut Line) -> bool
        ensures { leaves (controller_of self.new) result line.new.length line.new.bytes
            ≡ left_by (turn_of (controller_of self.old) k got.now) line.old.bytes }
    {
        if got.is_empty() {
            line.clear();
            return false;
        }
        if got.len() < RECORD {
            line.short(k);
            return false;
        }
        self.whole(k, got, line);
        true
    }

    // The last line of the night.
    pub fn last(&self, line: &mut Line)
        ensures { Wrote line.old.bytes 0 (tag_text self.now.tags) line.new.length line.new.bytes }
    {
        line.tag(self.tags);
    }
}
