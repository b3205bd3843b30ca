// A line of text, written piece by piece, and the lines of a replay.
ghost use Rattle.std.specs.Prelude.{◌≡◌, ◌+◌, ◌≤◌, ◌++◌, length, take};
ghost use Rattle.night.specs.Text.{line_bytes, most_digits, decimal, Sent, Refused, Short, text_of, tag_text, Wrote};

use crate::LINE;
use header::refusal::Refusal;
use tags::record::TagRecord;

// A line of text: the first bytes of a buffer. The bytes behind them are those of lines before.
#[derive(Drop)]
pub struct Line {
    bytes: [u8; LINE],
    length: usize,
    ghost within: { length ≤ line_bytes },
}

impl Line {
    // No text yet, over these bytes.
    pub fn over(bytes: [u8; LINE]) -> Line
        ensures bytes { result.bytes ≡ bytes }
        ensures none { result.length ≡ 0 }
    {
        Line { bytes, length: 0 }
    }

    // Its bytes, those of the text and those behind it.
    pub fn buffer(&self) -> &[u8; LINE]
        ensures { result.now ≡ self.now.bytes }
    {
        &self.bytes
    }

    // Its text.
    pub fn text(&self) -> &[u8]
        ensures { result.now ≡ take self.now.length self.now.bytes }
    {
        &self.bytes[..self.length]
    }

    // No text; its bytes stay.
    pub(crate) fn clear(&mut self)
        ensures none { self.new.length ≡ 0 }
        ensures bytes { self.new.bytes ≡ self.old.bytes }
    {
        self.length = 0;
    }

    // Puts a text behind what there is.
    fn put(&mut self, text: &[u8])
        requires { self.old.length + length text.now ≤ line_bytes }
        ensures { Wrote self.old.bytes self.old.length text.now self.new.length self.new.bytes }
    {
        let end = self.length + text.len();
        self.bytes[self.length..end].copy_from_slice(text);
        self.length = end;
    }

    // The same of a number in decimal, by `io::decimal`, whose contract says each digit.
    fn number(&mut self, n: u64)
        requires { self.old.length + most_digits ≤ line_bytes }
        ensures wrote { Wrote self.old.bytes self.old.length (decimal n) self.new.length self.new.bytes }
        ensures below { self.new.length ≤ self.old.length + most_digits }
    {
        let mut digits = [0u8; 20];
        let n = io::decimal(n, &mut digits);
        self.put(&digits[..n]);
    }

    // The same of a text and a number behind it.
    fn named(&mut self, text: &[u8], n: u64)
        requires { self.old.length + length text.now + most_digits ≤ line_bytes }
        ensures wrote { Wrote self.old.bytes self.old.length (text.now ++ decimal n) self.new.length self.new.bytes }
        ensures below { self.new.length ≤ self.old.length + length text.now + most_digits }
    {
        self.put(text);
        self.number(n);
    }

    // Begins the line of record k.
    fn begin(&mut self, k: u64)
        ensures wrote { Wrote self.old.bytes 0 (decimal k) self.new.length self.new.bytes }
        ensures below { self.new.length ≤ most_digits }
    {
        self.clear();
        self.number(k);
    }

    // The line of a record that was served.
    pub(crate) fn sent(&mut self, k: u64, words: usize)
        ensures { Wrote self.old.bytes 0 (text_of k (Sent words)) self.new.length self.new.bytes }
    {
        self.begin(k);
        self.named(b" sent ", words as u64);
        self.put(b"\n");
    }

    // The line of a record that was refused.
    pub(crate) fn refused(&mut self, k: u64, refusal: Refusal)
        ensures { Wrote self.old.bytes 0 (text_of k (Refused refusal)) self.new.length self.new.bytes }
    {
        self.begin(k);
        self.named(b" refused ", u64::from(refusal.number));
        self.named(b" at ", u64::from(refusal.at));
        self.put(b"\n");
    }

    // The line of a tail shorter than a record.
    pub(crate) fn short(&mut self, k: u64)
        ensures { Wrote self.old.bytes 0 (text_of k Short) self.new.length self.new.bytes }
    {
        self.begin(k);
        self.put(b" short\n");
    }

    // The last line: the newest tag, or that there is none.
    pub(crate) fn tag(&mut self, tags: TagRecord)
        ensures { Wrote self.old.bytes 0 (tag_text tags) self.new.length self.new.bytes }
    {
        self.clear();
        if tags.held == 0 {
            self.put(b"tag none\n");
        } else {
            self.named(b"tag ", u64::from(tags.tag));
            self.put(b"\n");
        }
    }
}
