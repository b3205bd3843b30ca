// What the programs share that play a night between the two ends: a message or an answer as bytes, a channel, and each
// end's calls on their real functions, and how what they gave is printed.
//
// No contract can say what is written. What only prints is safe, ends, and reads what it is lent; what a call gives,
// its contract says.
#![tactic(auto)]

ghost use Rattle.std.specs.Prelude.{◌≡◌, false, replicate};
ghost use Rattle.channel_run.specs.Bytes.{zeros, no_bytes, datagram_in, place_of, placed, composed};
ghost use Rattle.channel_run.specs.Bytes.{OneBuilt};

use building::asked::Asked;
use building::build;
use header::limits;
use header::refusal::Refusal;

pub mod controller;
pub mod loader;
pub mod night;
pub mod script;

// A message or an answer: the first n of some bytes. Where n is 0 it is none, as both ends say it.
#[derive(Clone, Copy)]
pub struct Bytes {
    pub bytes: [u8; limits::LIMIT_BYTES],
    pub n: usize,
}

impl Bytes {
    // Nothing.
    pub fn none() -> Bytes
        ensures { result ≡ no_bytes }
    {
        Bytes {
            bytes: [0; limits::LIMIT_BYTES],
            n: 0,
        }
    }

    // The datagram.
    pub fn as_slice(&self) -> &[u8]
        ensures { result.now ≡ datagram_in self.now }
    {
        show::front(&self.bytes, self.n)
    }
}

// A channel of eight places, which hold the last datagram of each number, modulo 8.
#[derive(Clone, Copy)]
pub struct Channel {
    pub places: [Bytes; 8],
}

impl Channel {
    // Nothing is in it.
    pub fn empty() -> Channel
        ensures { result.places ≡ replicate 8 no_bytes }
    {
        Channel {
            places: [Bytes::none(); 8],
        }
    }

    // What is there at this number.
    #[tactic(auto, unfolding(crate::specs::Bytes::place_of))]
    pub fn get(&self, i: u32) -> Bytes
        ensures { result ≡ place_of self.now.places i }
    {
        self.places[(i % 8) as usize]
    }

    // This datagram is put there, where it is one.
    #[tactic(auto, unfolding(crate::specs::Bytes::placed))]
    pub fn put(&mut self, i: u32, datagram: Bytes)
        ensures { self.new.places ≡ placed self.old.places i datagram }
    {
        if datagram.n > 0 {
            self.places[(i % 8) as usize] = datagram;
        }
    }
}

// Builds the message of one command in an output of zeros, and gives its length in bytes.
fn build_one(out: &mut [u8], kind: u32, tag: u32, asked: Asked, word: u32) -> Result<usize, Refusal>
    requires { out.old ≡ zeros }
    ensures { OneBuilt kind tag asked word result out.new }
{
    let begun = build::begin(out, kind, tag, false, false)?;
    let added = build::add(out, begun, asked, &[word])?;
    let closed = build::close(out, added)?;
    Ok(4 * closed.words)
}

// The message of one command, with the word that a write has. The kind is a number, as begin takes it.
pub fn compose(kind: u32, tag: u32, asked: Asked, word: u32) -> Bytes
    ensures { result ≡ composed kind tag asked word }
{
    let mut bytes = [0u8; limits::LIMIT_BYTES];
    match build_one(&mut bytes, kind, tag, asked, word) {
        Ok(n) => Bytes { bytes, n },
        Err(_) => Bytes::none(),
    }
}
