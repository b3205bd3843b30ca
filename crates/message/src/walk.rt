// The walk of a request: one step at a header, and the whole of any datagram.
ghost use Rattle.std.specs.Prelude.{◌≡◌, ℕ, ◌≤◌, true, cond, length};
ghost use Rattle.message.specs.Request.{Request, given};
ghost use Rattle.word.specs.Words.{words_of};
ghost use Rattle.header.specs.declared.Kind.TheVariants.{Write, Read as Reads};
ghost use Rattle.message.specs.Faults.{is_write, fault_of};
ghost use Rattle.message.specs.Walk.{commands_from, step_at, end_of, finish, read};
ghost use Rattle.header.specs.Limits.{limit, limit_bytes};
ghost use Rattle.header.specs.Header.{kind_of, count_of};

use crate::faults;
use header::refusal::{Refusal, check};
use header::{Head, Kind, limits};

// Whether byte 0 is a write's.
fn writes(byte0: u32) -> bool
    ensures { result ≡ is_write (kind_of byte0) }
{
    matches!(header::kind_of(byte0), Kind::Write)
}

// Whether this is a write of one word without fault, the most common command, whatever its address; of the rest nothing
// is said. Its last enables are 0, its count is 1 and its reserved bits are 0 exactly if bits 30:12 are 16. Byte 0 is
// looked at first, each test returns by itself, and so does each arm of `step_at`: with the kind first, or joined by
// `&&`, the walk is slower.
fn short_write(byte0: u32, h: u32, left: usize) -> bool
    ensures { result ≡ true
        → (kind_of byte0 ≡ Write) × (count_of h ≡ 1) × ((address : ℕ) → fault_of byte0 h left address ≡ 0) }
{
    if header::byte0(h) != byte0 {
        return false;
    }
    if !writes(byte0) {
        return false;
    }
    if h / 4096 % 524288 != 16 {
        return false;
    }
    let body = header::address_words(byte0) + 1;
    if header::last(h) {
        return left == body;
    }
    body <= left
}

// Whether byte 0 is a read's; where this says no, nothing is said.
fn reads(byte0: u32) -> bool
    ensures { result ≡ true → kind_of byte0 ≡ Reads }
{
    matches!(header::kind_of(byte0), Kind::Read)
}

// Whether this is a read without fault that ends the message, as most reads do; of the rest nothing is said. It is LAST
// and its reserved bits are 0 exactly if bits 31:28 are 8.
#[tactic(auto, using(crate::proofs::Laws::Faults::read_faultless))]
fn last_read(byte0: u32, h: u32, left: usize) -> bool
    ensures { result ≡ true → (address : ℕ) → fault_of byte0 h left address ≡ 0 }
{
    if !reads(byte0) {
        return false;
    }
    if header::byte0(h) != byte0 {
        return false;
    }
    if h / 268435456 != 8 {
        return false;
    }
    if header::count(h) == 0 {
        return false;
    }
    left == header::address_words(byte0)
}

// The header at word `at` of a datagram. The body of a short write has a size of its own here, so that the processor
// knows where the next header stands before it has this one.
#[tactic(auto, using(crate::proofs::Laws::Faults::counted_words), unfolding(crate::specs::Walk::step_at, crate::specs::Walk::step_on))]
pub(crate) fn step_at(byte0: u32, datagram: &[u8], at: usize) -> Result<Head, Refusal>
    requires { at ≤ limit }
    ensures { result ≡ step_at byte0 (words_of datagram.now) at }
{
    let place = at as u32;
    let n = datagram.len() / 4;
    check(at < n, Refusal::PAST_END, place)?;
    let h = word::word_at(datagram, at);
    let left = n - at - 1;
    if short_write(byte0, h, left) {
        return Ok(Head {
            byte1: header::byte1(h),
            count: 1,
            body: header::address_words(byte0) + 1,
            last: header::last(h),
        });
    }
    if last_read(byte0, h, left) {
        return Ok(header::head_of(byte0, h));
    }
    faults::fault(byte0, h, left, datagram, place)?;
    Ok(header::head_of(byte0, h))
}

// After the LAST command: byte 0, or 10 where the words of the all-OK answer pass the limit.
#[tactic(auto, unfolding(crate::specs::Walk::end_of))]
fn end(byte0: u32, answer: usize) -> Result<u32, Refusal>
    ensures { result ≡ end_of byte0 answer }
{
    check(answer <= limits::LIMIT, Refusal::LONG_ANSWER, 0)?;
    Ok(byte0)
}

// The data words of the OK answer to a command of this count: a write's has none.
fn reply(writes: bool, count: usize) -> usize
    ensures { result ≡ cond writes 0 count }
{
    if writes { 0 } else { count }
}

// The commands of a datagram of right length, whose byte 0 is this.
fn walk_on(datagram: &[u8], byte0: u32) -> Result<u32, Refusal>
    requires { length datagram.now ≤ limit_bytes }
    ensures { result ≡ finish byte0 0 (commands_from byte0 0 0 (words_of datagram.now)) }
{
    let writes = writes(byte0);
    let mut at: usize = 0;
    let mut answer: usize = 0;
    loop {
        let head = step_at(byte0, datagram, at)?;
        // The header's word, then the data's: as one sum the walk is slower.
        answer += 1;
        answer += reply(writes, head.count);
        if head.last {
            return end(byte0, answer);
        }
        at += 1 + head.body;
    }
}

// The walk of any datagram: byte 0 of its headers, or the refusal 2 to 10.
pub fn walk(datagram: &[u8]) -> Result<u32, Refusal>
    ensures { result ≡ given (λ (r : Request). r.byte0) (read datagram.now) }
{
    check(limits::length_ok(datagram.len()), Refusal::LENGTH, 0)?;
    walk_on(datagram, u32::from(datagram[0]))
}
