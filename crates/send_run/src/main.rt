// Runs the sender into every refusal 30 to 38, has four messages wait and takes their answers crossed, starts from
// discoveries' answers, and reads an outcome with an Error in the middle, on the real functions; prints what each call
// gave: its refusal, 0 for none, and the sender then.
#![tactic(auto)]

use initiator::outcome;
use show::Bytes;
use std::io;

mod run;
mod steps;

// The answer to three reads; the second failed.
const SECOND_FAILED: [u8; 12] = [0x32, 0, 1, 0, 0x11, 0x22, 0x33, 0x44, 0x32, 2, 0, 0x80];

// A line for command k of three reads, of whose answer these bytes came: how it ended, and its read data.
fn command(rt: &impl Print, answer: &[u8], k: usize) -> io::Result<()> {
    let request = &steps::THREE_READS;
    print!(rt; "command {k}: ")?;
    match outcome::ended(request, answer, k) {
        None => print!(rt; "absent")?,
        Some(status) => print!(rt; "status {}", u32::from(status))?,
    }
    let span = outcome::read_span(request, answer, k);
    let data = Bytes(outcome::read_data(request, answer, k));
    println!(rt; ", data from {} to {}{data}", span.start, span.end)
}

// How many of the three were answered.
fn answered(rt: &impl Print, label: &str, answer: &[u8]) -> io::Result<()> {
    let n = outcome::answered(&steps::THREE_READS, answer);
    println!(rt; "{label} {n}")
}

fn all(rt: &impl Print) -> io::Result<()> {
    steps::all(rt)?;
    answered(rt, "answered", &SECOND_FAILED)?;
    for k in 0..3 {
        command(rt, &SECOND_FAILED, k)?;
    }
    answered(rt, "answered, cut short", &SECOND_FAILED[..8])?;
    command(rt, &SECOND_FAILED[..8], 0)
}

fn main() {
    let _printed = all(&show::Out);
}
