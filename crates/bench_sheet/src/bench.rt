// The controller on the bench, and a datagram served there.
use completer::serving;
use header::limits;
use header::refusal::Refusal;
use show::{Words, WordsIn};
use std::{fmt, io};
use tags::record::TagRecord;

// The controller, and where what it gives is printed.
#[derive(Drop)]
pub(crate) struct Bench<'a, P: Print> {
    rt: &'a P,
    memory: [u32; 8],
    stored: [u32; TagRecord::STORED],
    kept: [u8; TagRecord::KEPT],
    tags: TagRecord,
}

// The refusal, or the words sent.
#[derive(Clone, Copy)]
struct Sent<'a> {
    served: Result<usize, Refusal>,
    output: &'a [u8],
}

impl fmt::Display for Sent<'_> {
    fn fmt<W: fmt::Write>(&self, f: &mut fmt::Formatter<W>) -> fmt::Result {
        match self.served {
            Ok(n) => {
                let sent = show::front(self.output, n);
                write!(f, "sent {} words{}", sent.len() / 4, WordsIn(sent))
            },
            Err(refusal) => write!(f, "refused {} at {}", refusal.number, refusal.at),
        }
    }
}

// The newest tag, and how many messages are held.
#[derive(Clone, Copy)]
struct Held(TagRecord);

impl fmt::Display for Held {
    fn fmt<W: fmt::Write>(&self, f: &mut fmt::Formatter<W>) -> fmt::Result {
        if self.0.held == 0 {
            return write!(f, "fresh");
        }
        write!(f, "tag {}, held {}", self.0.tag, self.0.held)
    }
}

impl<'a, P: Print> Bench<'a, P> {
    // "Memory of 8 zero words but word 4 = F00DFACE", and a record.
    pub(crate) fn of(rt: &'a P, tags: TagRecord) -> Bench<'a, P> {
        Bench {
            rt,
            memory: [0, 0, 0, 0, 0xF00D_FACE, 0, 0, 0],
            stored: [0; TagRecord::STORED],
            kept: [0; TagRecord::KEPT],
            tags,
        }
    }

    // "fresh unless said".
    pub(crate) fn fresh(rt: &'a P) -> Bench<'a, P> {
        Bench::of(rt, TagRecord::fresh())
    }

    // One that holds tag 15 alone, with a stored answer and a kept request of so many words.
    pub(crate) fn held(rt: &'a P, words: u32, request: u32) -> Bench<'a, P> {
        let tags = TagRecord {
            held: 1,
            tag: 15,
            words: [0, 0, 0, words],
            request: [0, 0, 0, request],
        };
        Bench::of(rt, tags)
    }

    // A datagram served, and what came of it.
    pub(crate) fn serves(&mut self, label: &str, datagram: &[u8]) -> io::Result<()> {
        let mut output = [0u8; limits::LIMIT_BYTES];
        let served = serving::serve(
            &mut self.memory,
            &mut self.stored,
            &mut self.kept,
            &mut output,
            &mut self.tags,
            datagram,
        );
        let sent = Sent {
            served,
            output: &output,
        };
        let memory = Words(&self.memory);
        println!(self.rt; "{label}: {sent}; memory{memory}; {}", Held(self.tags))
    }

    // The same of words, 15 at most.
    pub(crate) fn takes(&mut self, label: &str, words: &[u32]) -> io::Result<()> {
        let words = show::front(words, 15);
        let mut bytes = [0u8; 60];
        word::run::put_words(&mut bytes, 0, words);
        self.serves(label, show::front(&bytes, 4 * words.len()))
    }
}
