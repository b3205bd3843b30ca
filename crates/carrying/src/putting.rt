// The answer, written as the commands are carried out: to the output and, for a message that is kept, to the stored
// words together.
ghost use Rattle.std.specs.Prelude.{◌≡◌, ◌∷◌, [], ◌<◌, ◌≤◌, length, take};
ghost use Rattle.word.specs.Words.{longest};
ghost use Rattle.header.specs.Header.{count_of, last_of, header_from};
ghost use Rattle.answer.specs.declared.Status.TheVariants.{Ok};
ghost use Rattle.answer.specs.Answer.{code_of};
ghost use Rattle.carrying.specs.Answers.{advertisement};
ghost use Rattle.carrying.specs.Putting.{RoomFor, Adds};

use answer::Status;
use tags::record::TagRecord;

// An answer: its words so far, at the front of the output and, if the message is kept, of the stored words.
#[derive(Drop)]
pub struct Answer<'a> {
    pub stored: &'a mut [u32],
    pub output: &'a mut [u8],
    pub keep: bool,
    pub words: usize,
}

// The header of one command's answer.
fn head(byte: u32, status: Status, count: usize, last: bool) -> u32
    requires byte_bound { byte < 256 }
    requires count_bound { count < 4096 }
    ensures { result ≡ header_from byte (code_of status) count last }
{
    header::header_from(byte, u32::from(status), count, last)
}

impl Answer<'_> {
    // A word more.
    fn put(&mut self, w: u32)
        requires { RoomFor 1 self.old }
        ensures { Adds (w ∷ []) self.old self.new }
    {
        word::put_word(self.output, self.words, w);
        if self.keep {
            self.stored[self.words] = w;
        }
        self.words += 1;
    }

    // The header of one command's answer.
    pub(crate) fn put_head(&mut self, byte: u32, status: Status, count: usize, last: bool)
        requires { (byte < 256) × (count < 4096) × RoomFor 1 self.old }
        ensures { Adds (header_from byte (code_of status) count last ∷ []) self.old self.new }
    {
        self.put(head(byte, status, count, last));
    }

    // The header of an OK answer that has the count and LAST of the request's header h.
    pub(crate) fn put_asked(&mut self, byte: u32, h: u32)
        requires { (byte < 256) × RoomFor 1 self.old }
        ensures { Adds (header_from byte (code_of Ok) (count_of h) (last_of h) ∷ []) self.old self.new }
    {
        self.put(header::as_asked(byte, h));
    }

    // A run of words. One word, what most reads ask for, goes by itself.
    pub(crate) fn put_run(&mut self, words: &[u32])
        requires { (length words.now ≤ longest) × RoomFor (length words.now) self.old }
        ensures { Adds words.now self.old self.new }
    {
        if words.len() == 1 {
            return self.put(words[0]);
        }
        if self.keep {
            word::run::copy_words(self.stored, self.words, words);
        }
        word::run::put_words(self.output, self.words, words);
        self.words += words.len();
    }

    // The first `count` words of the advertisement: the record's own constant, then `mark`.
    pub(crate) fn put_advert(&mut self, mark: u32, count: usize)
        requires { (count ≤ 2) × RoomFor count self.old }
        ensures { Adds (take count (advertisement mark)) self.old self.new }
    {
        match count {
            0 => {},
            1 => self.put(TagRecord::BYTES as u32),
            _ => {
                self.put(TagRecord::BYTES as u32);
                self.put(mark);
            },
        }
    }
}
