// Builds a message of each kind and runs into every refusal 21 to 26, on the real functions, and prints what each call
// gave: its refusal, 0 for none, then the record, and the words of what was closed.
#![tactic(auto)]

use building::asked::Asked;
use building::build;
use building::record::Building;
use header::limits;
use header::refusal::Refusal;
use message::discovery;
use show::WordsIn;
use std::io;

mod refused;

// Kinds as begin takes them: numbers that can be wrong, so 3 is tried too.
pub(crate) const NOP: u32 = 0;

pub(crate) const WRITE: u32 = 1;

pub(crate) const READ: u32 = 2;

// The words that messages are built from.
const DATA: [u32; 3] = [0xFEED_C0DE, 0x1111_1111, 0x2222_2222];

// The record of a message with nothing added, without the discovery bit, of 32-bit addresses.
pub(crate) fn narrow(kind: u32, tag: u32) -> Building {
    Building {
        kind,
        tag,
        wide: false,
        discovery: false,
        words: 0,
        last: 0,
        answer: 0,
        closed: false,
    }
}

// The same of 64-bit addresses.
fn wide(kind: u32, tag: u32) -> Building {
    Building {
        wide: true,
        ..narrow(kind, tag)
    }
}

// A command with no enables, for what looks at none.
pub(crate) fn plain(address: u64, count: usize) -> Asked {
    Asked {
        address,
        first: 0,
        last: 0,
        count,
    }
}

pub(crate) fn write_at(address: u64, first: u32, last: u32) -> Asked {
    Asked {
        address,
        first,
        last,
        count: 0,
    }
}

// What a call gave, behind its name: its refusal, 0 for none, and the record, which a refused call leaves as it was.
pub(crate) fn told(
    rt: &impl Print,
    name: &str,
    before: Building,
    given: Result<Building, Refusal>,
) -> io::Result<Building> {
    let (number, b) = match given {
        Ok(b) => (Refusal::NONE, b),
        Err(refusal) => (refusal.number, before),
    };
    let state = if b.closed { "closed" } else { "open" };
    println!(rt;
        "{name}: refusal {number}, words {}, last {}, answer {}, {state}",
        b.words, b.last, b.answer
    )?;
    Ok(b)
}

// A message from begin to close, behind its heading; and its words.
fn built(
    rt: &impl Print,
    heading: &str,
    begun: Building,
    commands: &[(Asked, &[u32])],
) -> io::Result<()> {
    let mut out = [0u8; limits::LIMIT_BYTES];
    println!(rt; "{heading}")?;
    let given = build::begin(&out, begun.kind, begun.tag, begun.wide, begun.discovery);
    let mut b = told(rt, "begin", begun, given)?;
    for (asked, words) in commands {
        b = told(rt, "add", b, build::add(&mut out, b, *asked, words))?;
    }
    let b = told(rt, "close", b, build::close(&mut out, b))?;
    println!(rt; "{}", WordsIn(show::front(&out, b.words.saturating_mul(4))))
}

// The fixed discovery, built, and as it is kept.
fn fixed(rt: &impl Print) -> io::Result<()> {
    let begun = Building {
        discovery: true,
        ..narrow(NOP, 0)
    };
    let advert = [limits::LIMIT_BYTES as u32, 0];
    built(rt, "the fixed discovery", begun, &[(plain(0, 0), &advert)])?;
    println!(rt; "{}", WordsIn(&discovery::bytes()))
}

fn nops(rt: &impl Print) -> io::Result<()> {
    built(
        rt,
        "NOPs of 0 and 1 words, with an address",
        wide(NOP, 15),
        &[(plain(u64::MAX, 0), &[]), (plain(0, 9), &DATA[..1])],
    )
}

fn writes(rt: &impl Print) -> io::Result<()> {
    built(
        rt,
        "a write of a word",
        narrow(WRITE, 0),
        &[(write_at(4, 15, 0), &DATA[..1])],
    )?;
    built(
        rt,
        "gaps at 8",
        narrow(WRITE, 0),
        &[(write_at(8, 0x5, 0xA), &[0x1122_3344, 0x5566_7788])],
    )?;
    built(
        rt,
        "wide writes, one with no byte enabled, one at 2^64 - 1",
        wide(WRITE, 1),
        &[
            (write_at(8, 0, 0), &DATA[..1]),
            (write_at(u64::MAX, 12, 3), &DATA),
        ],
    )
}

fn reads(rt: &impl Print) -> io::Result<()> {
    let beside = Asked {
        address: 4,
        first: 99,
        last: 99,
        count: 2,
    };
    built(
        rt,
        "reads, one with data and enables",
        narrow(READ, 2),
        &[(plain(16, 1), &[]), (beside, &DATA)],
    )
}

fn all(rt: &impl Print) -> io::Result<()> {
    fixed(rt)?;
    nops(rt)?;
    writes(rt)?;
    reads(rt)?;
    refused::tries(rt)
}

fn main() {
    let _printed = all(&show::Out);
}
