// The steps: what each is called, the sender that it starts from if that is not the one that the step before left, its
// request and its answer.
use crate::run::Run;
use initiator::sender::Sender;
use std::io;

// Byte 3 of a LAST header, with a count below 256.
const LAST: u8 = 0x80;

pub(crate) const THREE_READS: [u8; 24] = [
    0x22, 0, 1, 0, 0, 0, 0, 0, 0x22, 0, 1, 0, 0x20, 0, 0, 0, 0x22, 0, 1, 0x80, 4, 0, 0, 0,
];

// An answer to them whose second status is 3.
const SECOND_UNKNOWN: [u8; 12] = [0x32, 0, 1, 0, 0x11, 0x22, 0x33, 0x44, 0x32, 3, 0, 0x80];

// A sender at which so many wait, and all but the oldest are answered, or none.
fn sender_of(next: u8, waiting: u8, answered: bool) -> Sender {
    Sender {
        next,
        waiting,
        second: answered,
        third: answered,
        fourth: answered,
    }
}

// A write of FEEDC0DE to word 1: byte 0, and the byte of LAST.
fn write(byte0: u8, last: u8) -> [u8; 12] {
    [byte0, 0x0f, 0x01, last, 4, 0, 0, 0, 0xde, 0xc0, 0xed, 0xfe]
}

// A request of this byte 0, all of it.
fn request(byte0: u8) -> [u8; 12] {
    write(byte0, LAST)
}

// An answer of a header alone.
fn answer(byte0: u8) -> [u8; 4] {
    [byte0, 0, 0, LAST]
}

// The answer to the fixed discovery with this status, count and word 1.
fn discovered(status: u8, count: u8, word: u8) -> [u8; 12] {
    [0xb0, status, count, 0x80, 0xc0, 0x05, 0, 0, word, 0, 0, 0]
}

// What an offer or a send is refused by.
fn refused(run: &mut Run<'_, impl Print>) -> io::Result<()> {
    run.sender = sender_of(16, 0, false);
    run.offers("offer to next tag 16", &request(0x10))?;
    run.sender = sender_of(0, 5, false);
    run.offers("offer where five wait", &request(0x15))?;
    run.sender = Sender::fresh();
    run.offers("offer of tag 1", &request(0x11))?;
    run.offers("offer of a discovery", &request(0x90))?;
    run.offers("offer without LAST", &write(0x10, 0))?;
    run.sends("send when none waits", &request(0x10))
}

// Four messages wait.
fn offered(run: &mut Run<'_, impl Print>) -> io::Result<()> {
    run.offers("offer of tag 0", &request(0x10))?;
    run.offers("offer of tag 1", &request(0x11))?;
    run.offers("offer of tag 2", &request(0x12))?;
    run.offers("offer of tag 3", &request(0x13))?;
    run.offers("offer when four wait", &request(0x14))?;
    run.sends("send of tag 0", &request(0x10))?;
    run.sends("send of tag 3", &request(0x13))?;
    run.sends("send of tag 4", &request(0x14))
}

// Answers to the oldest that are refused.
fn not_taken(run: &mut Run<'_, impl Print>) -> io::Result<()> {
    let oldest = request(0x10);
    run.takes("take of nothing", &oldest, &[])?;
    run.takes("take of tag 1 for tag 0", &oldest, &answer(0x31))?;
    run.takes("take with a reserved bit", &oldest, &[0x30, 0, 0, 0x90])?;
    run.takes("take without LAST", &oldest, &[0x30, 0, 0, 0])
}

// The answers, crossed.
fn crossed(run: &mut Run<'_, impl Print>) -> io::Result<()> {
    run.takes("take of tag 3", &request(0x13), &answer(0x33))?;
    run.takes("take of tag 1", &request(0x11), &answer(0x31))?;
    run.takes("take of tag 1 again", &request(0x11), &answer(0x31))?;
    run.offers("offer when two of four are answered", &request(0x14))?;
    run.takes("take of tag 0", &request(0x10), &answer(0x30))?;
    run.offers("offer of tag 4", &request(0x14))?;
    run.takes("take of tag 2", &request(0x12), &answer(0x32))?;
    run.takes("take of tag 4", &request(0x14), &answer(0x34))?;
    run.takes("take when none waits", &request(0x14), &answer(0x34))
}

// Answers to a message that waits from the start.
fn taken(run: &mut Run<'_, impl Print>) -> io::Result<()> {
    run.sender = sender_of(15, 1, false);
    run.takes("take of tag 15", &request(0x1f), &answer(0x3f))?;
    run.sender = sender_of(14, 4, true);
    run.takes(
        "take of tag 14, the three behind it answered",
        &request(0x1e),
        &answer(0x3e),
    )?;
    run.sender = sender_of(2, 1, false);
    run.takes("take of a second status 3", &THREE_READS, &SECOND_UNKNOWN)?;
    run.takes(
        "take of one answer of three",
        &THREE_READS,
        &SECOND_UNKNOWN[..8],
    )
}

// Answers to the fixed discovery.
fn started(run: &mut Run<'_, impl Print>) -> io::Result<()> {
    run.discovers("discovered, none stored", &discovered(0, 2, 0))?;
    run.discovers("discovered, tag 3 stored", &discovered(0, 2, 0x13))?;
    run.discovers("discovered, tag 15 stored", &discovered(0, 2, 0x1f))?;
    run.discovers("discovered, status Error", &discovered(2, 0, 0)[..4])?;
    run.offers("offer after that", &request(0x10))?;
    run.discovers("discovered, bit 5 set", &discovered(0, 2, 0x20))?;
    run.discovers("discovered, a tag without bit 4", &discovered(0, 2, 0x03))?;
    run.discovers("discovered, one word", &discovered(0, 1, 0))?;
    run.discovers("discovered by another answer", &answer(0x30))
}

pub(crate) fn all(rt: &impl Print) -> io::Result<()> {
    let mut run = Run {
        rt,
        sender: Sender::fresh(),
    };
    refused(&mut run)?;
    offered(&mut run)?;
    not_taken(&mut run)?;
    crossed(&mut run)?;
    taken(&mut run)?;
    started(&mut run)
}
