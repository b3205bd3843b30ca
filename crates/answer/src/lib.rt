// Answers: what stands at an answer's header, judged against the command that it answers, 34 and 35.
//
// The contracts cite specs/, where document 01's sentences have their definitions. The crate's root goes by
// specs/Answer.antt.
#![tactic(auto)]

ghost use Rattle.std.specs.Prelude.{◌≡◌, ◌<◌, ◌≤◌};
ghost use Rattle.word.specs.Words.{words_of};
ghost use Rattle.header.specs.Limits.{limit};
ghost use Rattle.header.specs.Refusal.{as_result};
ghost use Rattle.answer.specs.Answer.{code_of, known_status, answer_byte, wanted, stops, look_on, look_at, head_fault};

use header::refusal::{Refusal, check};
use header::{Kind, limits};

// How a command ended.
#[derive(Clone, Copy, PartialEq, Eq)]
pub enum Status {
    Ok,
    Timeout,
    Error,
}

// An answer's header as it was read.
#[derive(Clone, Copy)]
pub struct Seen {
    pub status: Status,
    pub count: usize,
    pub last: bool,
}

// The status that a number names.
impl TryFrom<u32> for Status {
    type Error = ();

    ghost try_from_gives = { λ n r. r ≡ known_status n };

    #[tactic(auto, unfolding(crate::specs::Answer::status_no))]
    fn try_from(n: u32) -> Result<Self, ()> {
        match n {
            0 => Ok(Status::Ok),
            1 => Ok(Status::Timeout),
            2 => Ok(Status::Error),
            3.. => Err(()),
        }
    }
}

// The number of a status.
impl From<Status> for u32 {
    ghost from_gives = { λ status n. (n ≡ code_of status) × (n < 3) };

    fn from(status: Status) -> u32 {
        match status {
            Status::Ok => 0,
            Status::Timeout => 1,
            Status::Error => 2,
        }
    }
}

// Byte 0 of the answer to a request of this byte 0.
#[tactic(auto, unfolding(crate::specs::Answer::answer_byte))]
pub fn answer_byte(byte0: u32) -> u32
    ensures value { result ≡ answer_byte byte0 }
    ensures below { result < 256 }
{
    header::byte0_from(
        header::tag(byte0),
        Kind::Response,
        header::wide(byte0),
        header::discovery(byte0),
    )
}

// The data words of the answer to a command with this count.
fn wanted_words(byte0: u32, count: usize, status: Status) -> usize
    ensures { result ≡ wanted byte0 count status }
{
    match status {
        Status::Ok => header::reply_words(header::kind_of(byte0), count),
        Status::Timeout | Status::Error => 0,
    }
}

// Whether an answer ends here.
fn must_stop(status: Status, last: bool) -> bool
    ensures { result ≡ stops status last }
{
    last || status != Status::Ok
}

// An answer's header h, at word `at` of the answer and with `left` words after it, to a command with this count: as it
// was read, or refused by its first fault.
#[tactic(auto, unfolding(crate::specs::Answer::look_on, crate::specs::Answer::answer_fault, crate::specs::Answer::seen_of))]
pub fn look_on(
    byte0: u32,
    count: usize,
    last: bool,
    at: u32,
    h: u32,
    left: usize,
) -> Result<Seen, Refusal>
    ensures { result ≡ look_on byte0 count last at h left }
{
    let same = header::byte0(h) == answer_byte(byte0);
    check(same, Refusal::ANSWER_HEADER, at)?;
    check(header::reserved(h) == 0, Refusal::ANSWER_HEADER, at)?;
    let Ok(status) = Status::try_from(header::byte1(h)) else {
        return Err(Refusal {
            number: Refusal::ANSWER_HEADER,
            at,
        });
    };
    let seen = Seen {
        status,
        count: header::count(h),
        last: header::last(h),
    };
    let counted = seen.count == wanted_words(byte0, count, status);
    check(counted, Refusal::ANSWER_HEADER, at)?;
    check(seen.count <= left, Refusal::ANSWER_END, at)?;
    let stopped = seen.last == must_stop(status, last);
    check(stopped, Refusal::ANSWER_END, at)?;
    let ends = header::ends_ok(seen.last, seen.count, left);
    check(ends, Refusal::ANSWER_END, at)?;
    Ok(seen)
}

// The answer's header at word `at` of a datagram.
#[tactic(auto, using(message::proofs::Laws::Faults::counted_words), unfolding(crate::specs::Answer::look_at))]
pub fn look_at(
    byte0: u32,
    count: usize,
    last: bool,
    answer: &[u8],
    at: usize,
) -> Result<Seen, Refusal>
    requires { at ≤ limit }
    ensures { result ≡ look_at byte0 count last (words_of answer.now) at }
{
    let place = at as u32;
    let n = answer.len() / 4;
    check(at < n, Refusal::ANSWER_END, place)?;
    look_on(
        byte0,
        count,
        last,
        place,
        word::word_at(answer, at),
        n - at - 1,
    )
}

// 32, then 33: whether an answer to a request of this byte 0 has a right length and the first byte for it.
#[tactic(auto, using(crate::proofs::Laws::Looking::some_bytes), unfolding(crate::specs::Answer::head_fault))]
pub fn check_head(byte0: u32, answer: &[u8]) -> Result<(), Refusal>
    ensures { result ≡ as_result (head_fault byte0 answer.now) }
{
    check(limits::length_ok(answer.len()), Refusal::ANSWER_LENGTH, 0)?;
    let same = u32::from(answer[0]) == answer_byte(byte0);
    check(same, Refusal::ANSWER_BYTE_0, 0)
}
