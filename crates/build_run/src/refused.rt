// Every refusal 21 to 26: what is tried, and the number that it gets.
use crate::{NOP, READ, WRITE, narrow, plain, told, write_at};
use building::asked::Asked;
use building::build;
use building::record::Building;
use header::limits;
use std::io;

// Begins in an output of so many bytes.
fn begins(rt: &impl Print, label: &str, bytes: usize, kind: u32, tag: u32) -> io::Result<()> {
    let out = [0u8; limits::LIMIT_BYTES];
    let given = build::begin(show::front(&out, bytes), kind, tag, false, false);
    told(rt, label, narrow(kind, tag), given)?;
    Ok(())
}

// A record as a caller may hand it in.
fn record(kind: u32, words: usize, last: usize, answer: usize, closed: bool) -> Building {
    Building {
        words,
        last,
        answer,
        closed,
        ..narrow(kind, 0)
    }
}

fn closes(rt: &impl Print, label: &str, b: Building) -> io::Result<()> {
    let mut out = [0u8; limits::LIMIT_BYTES];
    told(rt, label, b, build::close(&mut out, b))?;
    Ok(())
}

// Adds a command with so many data words to a record.
fn adds(rt: &impl Print, label: &str, b: Building, asked: Asked, n: usize) -> io::Result<()> {
    let mut out = [0u8; limits::LIMIT_BYTES];
    let words = [0u32; 4096];
    let given = build::add(&mut out, b, asked, show::front(&words, n));
    told(rt, label, b, given)?;
    Ok(())
}

// The first command of a message.
fn adds_first(rt: &impl Print, label: &str, kind: u32, asked: Asked, n: usize) -> io::Result<()> {
    adds(rt, label, narrow(kind, 0), asked, n)
}

// A write of so many words.
fn writes(
    rt: &impl Print,
    label: &str,
    address: u64,
    first: u32,
    last: u32,
    n: usize,
) -> io::Result<()> {
    adds_first(rt, label, WRITE, write_at(address, first, last), n)
}

// A read of so many words, with n data words beside it.
fn reads(rt: &impl Print, label: &str, address: u64, count: usize, n: usize) -> io::Result<()> {
    adds_first(rt, label, READ, plain(address, count), n)
}

// 21: a short output, a kind, a tag, records that no sequence of calls gives.
fn twenty_one(rt: &impl Print) -> io::Result<()> {
    begins(
        rt,
        "begin in a byte too few",
        limits::LIMIT_BYTES - 1,
        NOP,
        0,
    )?;
    begins(rt, "begin kind 3", limits::LIMIT_BYTES, 3, 0)?;
    begins(rt, "begin tag 16", limits::LIMIT_BYTES, NOP, 16)?;
    closes(
        rt,
        "a write that ends within its address",
        record(WRITE, 4, 2, 2, false),
    )?;
    closes(rt, "closed and empty", record(NOP, 0, 0, 0, true))?;
    closes(rt, "kind 3 in a record", record(3, 0, 0, 0, false))
}

// 22: closing with nothing added, closing twice, adding after closing.
fn twenty_two(rt: &impl Print) -> io::Result<()> {
    closes(
        rt,
        "close with nothing added",
        record(WRITE, 0, 0, 0, false),
    )?;
    let closed = record(WRITE, 3, 0, 1, true);
    closes(rt, "close twice", closed)?;
    adds(rt, "add after closing", closed, write_at(0, 15, 0), 1)
}

// 23: counts.
fn twenty_three(rt: &impl Print) -> io::Result<()> {
    writes(rt, "write no words", 0, 15, 0, 0)?;
    writes(rt, "write 4,096 words", 0, 15, 15, 4096)?;
    reads(rt, "read no words", 0, 0, 1)?;
    reads(rt, "read 4,097 words", 0, 4097, 1)?;
    adds_first(rt, "NOP of 3 words", NOP, plain(0, 1), 3)
}

// 24: enables, and gaps, which two words at a multiple of 8 alone may have, judged before 25.
fn twenty_four(rt: &impl Print) -> io::Result<()> {
    writes(rt, "write 1, last enables 1", 0, 15, 1, 1)?;
    writes(rt, "write 2, last enables 0", 0, 15, 0, 2)?;
    writes(rt, "write 1, first enables 16", 0, 16, 0, 1)?;
    writes(rt, "write 2, last enables 16", 0, 15, 16, 2)?;
    writes(rt, "gaps at 12", 12, 0x5, 0xA, 2)?;
    writes(rt, "gaps at 9", 9, 0x5, 0xA, 2)?;
    writes(rt, "gaps at 2^32 + 12", TOO_FAR + 12, 0x5, 0xA, 2)?;
    writes(rt, "gaps at 2^32 + 8", TOO_FAR + 8, 0x5, 0xA, 2)?;
    writes(rt, "gaps in 3 words at 8", 8, 0x5, 0xA, 3)
}

// 2^32.
const TOO_FAR: u64 = 4_294_967_296;

// 25: addresses of 2^32, and one less.
fn twenty_five(rt: &impl Print) -> io::Result<()> {
    writes(rt, "write at 2^32", TOO_FAR, 15, 0, 1)?;
    writes(rt, "write at 2^32 - 1", TOO_FAR - 1, 15, 0, 1)?;
    reads(rt, "read at 2^32", TOO_FAR, 1, 0)
}

// 26: a message and an all-OK answer of the limit, and of one word more.
fn twenty_six(rt: &impl Print) -> io::Result<()> {
    writes(rt, "message of the limit", 0, 15, 15, limits::LIMIT - 2)?;
    writes(rt, "and of one word more", 0, 15, 15, limits::LIMIT - 1)?;
    reads(rt, "all-OK answer of the limit", 0, limits::LIMIT - 1, 0)?;
    reads(rt, "and of one word more", 0, limits::LIMIT, 0)
}

pub(crate) fn tries(rt: &impl Print) -> io::Result<()> {
    twenty_one(rt)?;
    twenty_two(rt)?;
    twenty_three(rt)?;
    twenty_four(rt)?;
    twenty_five(rt)?;
    twenty_six(rt)
}
