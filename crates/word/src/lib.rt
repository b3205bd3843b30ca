// Little-endian words in byte slices, runs of words (`run`), and a word merged under byte enables.
//
// The contracts cite specs/Words.antt and specs/Enables.antt, and so do those of every crate above.
#![tactic(auto)]

pub mod run;

ghost use Rattle.std.specs.Prelude.{◌≡◌, ◌+◌, ◌*◌, ◌<◌, ◌≤◌, ◌∷◌, [], length, get_or};
ghost use Rattle.word.specs.Words.{words_of, put_words};
ghost use Rattle.word.specs.Enables.{merged};

// A byte as a number.
pub fn from_byte(x: u8) -> u32
    ensures value { result ≡ x }
    ensures below { result < 256 }
{
    x as u32
}

// Word i of the bytes b.
pub fn word_at(b: &[u8], i: usize) -> u32
    requires { 4 * i + 4 ≤ length b.now }
    ensures { result ≡ get_or (words_of b.now) i 0 }
{
    let at = 4 * i;
    from_byte(b[at])
        + 256 * from_byte(b[at + 1])
        + 65536 * from_byte(b[at + 2])
        + 16777216 * from_byte(b[at + 3])
}

// Makes w word i of the bytes out. Every other byte stays.
pub fn put_word(out: &mut [u8], i: usize, w: u32)
    requires { 4 * i + 4 ≤ length out.old }
    ensures { out.new ≡ put_words out.old i (w ∷ []) }
{
    let at = 4 * i;
    out[at] = (w % 256) as u8;
    out[at + 1] = (w / 256 % 256) as u8;
    out[at + 2] = (w / 65536 % 256) as u8;
    out[at + 3] = (w / 16777216 % 256) as u8;
}

// The bits of a word that the enables cover: ones merged into zeros. The product has a copy of the four enables every 7
// bits, so that bit i stands lowest in byte i. Each byte is then 0 or 1; with 0x7F added 0x7F or 0x80, which differ
// from 0x7F by 0 or 0xFF.
fn covered(enables: u32) -> u32
    ensures { result ≡ merged 0 0xFFFF_FFFF enables }
{
    let lowest = enables % 16 * 0x20_4081 & 0x0101_0101;
    (lowest + 0x7F7F_7F7F) ^ 0x7F7F_7F7F
}

// The old word with the enabled bytes of the new one: bit i of enables covers byte i, and bits 4 and up cover none. A
// whole word, which most are, is asked for first: it waits for no byte of the old one.
pub fn merge(old: u32, new: u32, enables: u32) -> u32
    ensures { result ≡ merged old new enables }
{
    if enables == 15 {
        return new;
    }
    old ^ ((old ^ new) & covered(enables))
}
