// The lines of the sheet: what each is called, what it starts from, and its datagram. A star: the line is one of the
// marked ones.
use crate::bench::Bench;
use std::io;

const A: [u32; 3] = [0x8001_0F10, 4, 0xFEED_C0DE];

// The next three, and the one behind them.
const TAG_1: [u32; 2] = [0x8001_0021, 0x10];

const TAG_2: [u32; 4] = [0x8002_FF12, 8, 0x1111_1111, 0x2222_2222];

const TAG_3: [u32; 2] = [0x8003_0023, 4];

const TAG_4: [u32; 6] = [0x0001_0F14, 0, 0x3333_3333, 0x8001_0F14, 0x14, 0x4444_4444];

// Four writes and a fifth of another tag: refused 4 at 12, and none of them is carried out.
const FIFTH_DIFFERS: [u32; 15] = [
    0x0001_0F10,
    0,
    0x1111_1111,
    0x0001_0F10,
    0,
    0x1111_1111,
    0x0001_0F10,
    0,
    0x1111_1111,
    0x0001_0F10,
    0,
    0x1111_1111,
    0x8001_0F11,
    4,
    0x2222_2222,
];

fn discoveries<R: Print>(rt: &R) -> io::Result<()> {
    Bench::fresh(rt).takes("* NOP", &[0x8001_0080, 4])?;
    Bench::fresh(rt).takes("* forced read", &[0x8001_00A0, 0x10])?;
    Bench::fresh(rt).takes("* forced write", &[0x8001_0F90, 4, 0xFEED_C0DE])
}

// One message is held.
fn one<R: Print>(rt: &R) -> io::Result<()> {
    let mut bench = Bench::fresh(rt);
    bench.takes("* (a)", &A)?;
    bench.takes("  a discovery write of 0", &[0x8001_0F90, 4, 0])?;
    bench.takes("* (b)", &A)?;
    bench.takes("* (c)", &[0x8001_0411, 4, 0xAABB_CCDD])?;
    let mut bench = Bench::fresh(rt);
    bench.takes("  (a)", &A)?;
    bench.takes("* (d)", &[0x8001_0F12, 4, 0])?;
    Bench::held(rt, 1, 1).takes("* after tag 15, tag 0", &A)
}

// Commands that fail, and headers that are refused.
fn failing<R: Print>(rt: &R) -> io::Result<()> {
    Bench::fresh(rt).takes("* read past the end", &[0x8002_0020, 0x1C])?;
    let second_past_the_end = [0x0001_0F10, 0, 0x1111_1111, 0x8001_0F10, 0x20, 0x2222_2222];
    Bench::fresh(rt).takes("* OK, then past the end", &second_past_the_end)?;
    Bench::fresh(rt).takes("* address past 2^32", &[0x8001_0F50, 4, 1, 0])?;
    Bench::fresh(rt).takes("* gaps at 8", &[0x8002_A510, 8, 0x1122_3344, 0x5566_7788])?;
    Bench::fresh(rt).takes("* gaps at 12", &[0x8002_A510, 12, 0x1122_3344, 0x5566_7788])?;
    Bench::fresh(rt).takes("* another tag in the fifth header", &FIFTH_DIFFERS)
}

// What a record may say is held.
fn limits<R: Print>(rt: &R) -> io::Result<()> {
    Bench::held(rt, 2243, 1).takes("* a stored answer of the limit", &A)?;
    Bench::held(rt, 2244, 1).takes("* and of one word more", &A)?;
    Bench::held(rt, 1, 2243).takes("* a kept request of the limit", &A)?;
    Bench::held(rt, 1, 2244).takes("* and of one word more", &A)
}

// [7] A held tag with other bytes.
fn other_bytes<R: Print>(rt: &R) -> io::Result<()> {
    let mut bench = Bench::fresh(rt);
    bench.takes("  (a)", &A)?;
    bench.takes(
        "* (a) with another data word",
        &[0x8001_0F10, 4, 0xFEED_C0DF],
    )?;
    let longer = [0x0001_0F10, 4, 0xFEED_C0DE, 0x8001_0F10, 8, 0x2222_2222];
    bench.takes("* (a) with a write behind it", &longer)?;
    bench.takes("* (a) again", &A)?;
    let mut bench = Bench::fresh(rt);
    bench.takes("  a read", &[0x8001_0020, 0x10])?;
    bench.takes("* the read with another byte 1", &[0x8001_1120, 0x10])
}

// [9] A fresh record, and four that are held.
fn four<R: Print>(rt: &R) -> io::Result<()> {
    Bench::fresh(rt).takes("* fresh, tag 1", &TAG_1)?;
    Bench::fresh(rt).takes("* fresh, tag 15", &[0x8001_0F1F, 4, 0xFEED_C0DE])?;
    let mut bench = Bench::fresh(rt);
    bench.takes("  (a)", &A)?;
    bench.takes("  tag 1, a read", &TAG_1)?;
    bench.takes("  tag 2, a write of two words", &TAG_2)?;
    bench.takes("  tag 3, a read of three", &TAG_3)?;
    bench.takes("* (a) again", &A)?;
    bench.takes("* tag 1 again", &TAG_1)?;
    bench.takes("* tag 2 again", &TAG_2)?;
    bench.takes("* tag 3 again", &TAG_3)?;
    fifth(&mut bench)
}

// A fifth message behind them.
fn fifth<R: Print>(bench: &mut Bench<'_, R>) -> io::Result<()> {
    bench.takes("* tag 15, an older one", &[0x8001_002F, 0x10])?;
    bench.takes("* tag 5, an early one", &[0x8001_0025, 0x10])?;
    bench.takes("  tag 4, the next", &TAG_4)?;
    bench.takes("* (a), an older one now", &A)?;
    bench.takes("* tag 1 again", &TAG_1)?;
    bench.takes("* tag 2 again", &TAG_2)?;
    bench.takes("* tag 3 again", &TAG_3)?;
    bench.takes("* tag 4 again", &TAG_4)
}

// The lines without a star.
fn unmarked<R: Print>(rt: &R) -> io::Result<()> {
    Bench::fresh(rt).serves("  no bytes", &[])?;
    Bench::fresh(rt).serves("  3 bytes", &[0x10, 0x0F, 0x01])?;
    Bench::fresh(rt).takes("  count 0", &[0x8000_0F10, 4])?;
    Bench::fresh(rt).takes("  a reserved bit", &[0x9001_0F10, 4, 0])?;
    Bench::fresh(rt).takes("  the longest read", &[0x88C2_0020, 0])?;
    Bench::fresh(rt).takes("  one word longer", &[0x88C3_0020, 0])
}

pub(crate) fn all<R: Print>(rt: &R) -> io::Result<()> {
    discoveries(rt)?;
    one(rt)?;
    failing(rt)?;
    limits(rt)?;
    other_bytes(rt)?;
    four(rt)?;
    unmarked(rt)
}
