// What an answer tells of its request: whether it is refused, how many commands were answered, how each ended, and
// where the data of a read stand in the answer's own bytes. No sender record is looked at, so it serves after the
// answer was accepted too.
ghost use Rattle.std.specs.Prelude.{◌≡◌, ◌+◌, ◌*◌, ◌<◌, ◌≤◌, length, get_or};
ghost use Rattle.word.specs.Words.{words_of};
ghost use Rattle.header.specs.Limits.{limit, limit_bytes};
ghost use Rattle.header.specs.Header.{kind_of, count_of, body_words};
ghost use Rattle.message.specs.Walk.{read};
ghost use Rattle.message.specs.Request.{given};
ghost use Rattle.initiator.specs.Outcome.{span_of, part_of, told_of, judged_by, count_in, ending_in, part_in};
ghost use Rattle.initiator.specs.Outcome.{outcome_of, ReadData, judged_in};
ghost use Rattle.initiator.specs.Telling.{with_item, look_beside, Ready, answers_to};

use crate::asking;
use answer::{Seen, Status};
use header::Kind;
use header::refusal::Refusal;

// A part of an answer's bytes. No Range, which is not copied: C's part and two calls read it.
#[derive(Clone, Copy)]
pub struct Span {
    pub start: usize,
    pub end: usize,
}

// What is told of an accepted answer and of its command number k: how many commands were answered, how command k ended
// (none: it was not answered), and the bytes of the answer in which its read data stand.
#[derive(Clone, Copy)]
pub struct Outcome {
    pub count: usize,
    pub ending: Option<Status>,
    pub part: Span,
}

// The part of a command with no read data.
const NO_PART: Span = Span { start: 0, end: 0 };

// The bytes of `count` data words behind the header at word `at`.
fn data_span(at: usize, count: usize) -> Span
    requires at_le_limit { at ≤ limit }
    requires count_bound { count < 4096 }
    ensures { result ≡ span_of at count }
{
    Span {
        start: 4 * (at + 1),
        end: 4 * (at + 1 + count),
    }
}

// Where the data of an answered command stand, whose header stands at word `at`: empty for anything but an OK read.
fn part_of(kind: Kind, status: Status, at: usize, count: usize) -> Span
    requires at_le_limit { at ≤ limit }
    requires count_bound { count < 4096 }
    ensures { result ≡ part_of kind status at count }
{
    match (kind, status) {
        (Kind::Read, Status::Ok) => data_span(at, count),
        _ => NO_PART,
    }
}

// What was told so far, with one answer more: that of command k gives its ending and its part.
fn with_item(told: Outcome, k: usize, kind: Kind, at: usize, seen: Seen) -> Outcome
    requires { (told.count ≤ limit)
        × (at ≤ limit)
        × (seen.count < 4096) }
    ensures { result ≡ with_item told k kind at seen.status seen.count }
{
    let count = told.count + 1;
    if told.count != k {
        return Outcome { count, ..told };
    }
    let status = seen.status;
    Outcome {
        count,
        ending: Some(status),
        part: part_of(kind, status, at, seen.count),
    }
}

// What stands at word `back` of the answer, beside the command whose header stands at word `at` of the request.
fn look_beside(
    request: &[u8],
    answer: &[u8],
    byte0: u32,
    at: usize,
    back: usize,
) -> Result<Seen, Refusal>
    requires at_in_bounds { 4 * at + 4 ≤ length request.now }
    requires back_le_limit { back ≤ limit }
    ensures { result ≡ look_beside (words_of request.now) (words_of answer.now) byte0 at back }
{
    let h = word::word_at(request, at);
    answer::look_at(byte0, header::count(h), header::last(h), answer, back)
}

// The words of the body of the command whose header stands at word `at`.
fn body_at(request: &[u8], byte0: u32, at: usize) -> usize
    requires { 4 * at + 4 ≤ length request.now }
    ensures value { result ≡ body_words byte0 (count_of (get_or (words_of request.now) at 0)) }
    ensures below { result < 4098 }
{
    header::body_words(byte0, word::word_at(request, at))
}

// The answers to a request's commands, side by side with them.
fn look_through(request: &[u8], answer: &[u8], byte0: u32, k: usize) -> Result<Outcome, Refusal>
    requires ready { Ready request.now byte0 }
    requires answer_len_bound { length answer.now ≤ limit_bytes }
    ensures { result ≡ given (told_of (kind_of byte0) k)
        (answers_to (read request.now) (words_of answer.now)) }
{
    let kind = header::kind_of(byte0);
    let mut told = Outcome {
        count: 0,
        ending: None,
        part: NO_PART,
    };
    // Both go on by a command's size, so that no index is counted.
    let mut at: usize = 0;
    let mut back: usize = 0;
    loop {
        let seen = look_beside(request, answer, byte0, at, back)?;
        told = with_item(told, k, kind, back, seen);
        if seen.last {
            return Ok(told);
        }
        at += 1 + body_at(request, byte0, at);
        back += 1 + seen.count;
    }
}

// What an answer tells of an accepted request, whose byte 0 is this, and of command k: refused by 32 to 35, or what it
// holds.
pub(crate) fn told_by(
    request: &[u8],
    answer: &[u8],
    byte0: u32,
    k: usize,
) -> Result<Outcome, Refusal>
    requires { Ready request.now byte0 }
    ensures { result ≡ given (told_of (kind_of byte0) k) (judged_in (read request.now) answer.now) }
{
    answer::check_head(byte0, answer)?;
    look_through(request, answer, byte0, k)
}

// What an answer tells of its request and of command k: refused by 31 (its tag clause aside) to 35, or what it holds.
pub fn told(request: &[u8], answer: &[u8], k: usize) -> Result<Outcome, Refusal>
    ensures { result ≡ outcome_of request.now answer.now k }
{
    let byte0 = asking::ask(request)?;
    told_by(request, answer, byte0, k)
}

// How many commands were answered; 0 where the answer is refused.
pub fn answered(request: &[u8], answer: &[u8]) -> usize
    ensures { result ≡ count_in (judged_by (read request.now) answer.now) }
{
    match told(request, answer, 0) {
        Ok(told) => told.count,
        Err(_) => 0,
    }
}

// How command k ended, counted from 0; none where the answer is refused or has no such command.
pub fn ended(request: &[u8], answer: &[u8], k: usize) -> Option<Status>
    ensures { result ≡ ending_in k (judged_by (read request.now) answer.now) }
{
    told(request, answer, k).ok()?.ending
}

// Where command k's read data stand in the answer; empty at 0 for anything but an answered OK read.
pub fn read_span(request: &[u8], answer: &[u8], k: usize) -> Span
    ensures value { result ≡ part_in (kind_of (get_or request.now 0 0)) k
        (judged_by (read request.now) answer.now) }
    ensures inside { (result.start ≤ result.end) × (result.end ≤ length answer.now) }
{
    match told(request, answer, k) {
        Ok(told) => told.part,
        Err(_) => NO_PART,
    }
}

// Command k's read data, as a part of the answer's own bytes.
pub fn read_data<'a>(request: &[u8], answer: &'a [u8], k: usize) -> &'a [u8]
    ensures { ReadData request.now answer.now k result.now }
{
    let span = read_span(request, answer, k);
    &answer[span.start..span.end]
}
