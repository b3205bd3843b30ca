// What programs print: runs of words and of bytes; where they print it; and the front of a slice.
//
// No contract can say what is written.
#![tactic(auto)]

ghost use Rattle.std.specs.Prelude.{◌≡◌, ◌≤◌, take};

use std::fmt;

// The descriptor of standard output.
const STDOUT: i32 = 1;

// Standard output. What it does not take is lost, and the program goes on.
#[derive(Clone, Copy)]
pub struct Out;

impl Print for Out {
    fn print<D: fmt::Display + Drop>(&self, value: D) -> std::io::Result<()> {
        say(value, "")
    }

    fn println<D: fmt::Display + Drop>(&self, value: D) -> std::io::Result<()> {
        say(value, "\n")
    }

    fn write_all(&self, bytes: &[u8]) -> std::io::Result<()> {
        io::write_all(STDOUT, bytes);
        Ok(())
    }
}

// Writes a value, and `end` behind it; it gives no error, whatever becomes of them.
fn say<D: fmt::Display + Drop>(value: D, end: &str) -> std::io::Result<()> {
    let mut f = fmt::Formatter::new(Gathered::empty());
    let _printed = f.write(&value);
    let _ended = f.write(end);
    f.into_inner().out();
    Ok(())
}

// Bytes that are written together.
#[derive(Drop)]
struct Gathered {
    bytes: [u8; 1024],
    n: usize,
    ghost within: { n ≤ 1024 },
}

impl Gathered {
    fn empty() -> Gathered {
        Gathered {
            bytes: [0; 1024],
            n: 0,
        }
    }

    // A byte more; where there is no room, those before it are written.
    fn push(&mut self, b: u8) {
        if self.n >= 1024 {
            self.out();
        }
        self.bytes[self.n] = b;
        self.n += 1;
    }

    // Writes them.
    fn out(&mut self)
        ensures { self.new.n ≡ 0 }
    {
        io::write_all(STDOUT, &self.bytes[..self.n]);
        self.n = 0;
    }
}

impl fmt::Write for Gathered {
    fn write_str(&mut self, text: &str) -> fmt::Result {
        for b in text.as_bytes() {
            self.push(*b);
        }
        Ok(())
    }
}

// Words in hexadecimal, a space in front of each.
#[derive(Clone, Copy)]
pub struct Words<'a>(pub &'a [u32]);

impl fmt::Display for Words<'_> {
    fn fmt<W: fmt::Write>(&self, f: &mut fmt::Formatter<W>) -> fmt::Result {
        for w in self.0 {
            write!(f, " {w:08x}")?;
        }
        Ok(())
    }
}

// Bytes likewise.
#[derive(Clone, Copy)]
pub struct Bytes<'a>(pub &'a [u8]);

impl fmt::Display for Bytes<'_> {
    fn fmt<W: fmt::Write>(&self, f: &mut fmt::Formatter<W>) -> fmt::Result {
        for b in self.0 {
            write!(f, " {b:02x}")?;
        }
        Ok(())
    }
}

// The words that stand in some bytes, likewise.
#[derive(Clone, Copy)]
pub struct WordsIn<'a>(pub &'a [u8]);

impl fmt::Display for WordsIn<'_> {
    fn fmt<W: fmt::Write>(&self, f: &mut fmt::Formatter<W>) -> fmt::Result {
        for word in self.0.chunks_exact(4) {
            write!(f, " {:08x}", word::word_at(word, 0))?;
        }
        Ok(())
    }
}

// The first n, or all where there are fewer.
pub fn front<T>(xs: &[T], n: usize) -> &[T]
    ensures { result.now ≡ take n xs.now }
{
    &xs[..n.min(xs.len())]
}
