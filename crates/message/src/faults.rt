// What can be wrong with a header, 3 to 9: each check, and the first that fails.
ghost use Rattle.std.specs.Prelude.{◌≡◌, ◌+◌, ◌*◌, ◌≤◌, length, drop};
ghost use Rattle.header.specs.Refusal.{refused_at, as_result};
ghost use Rattle.word.specs.Words.{words_of};
ghost use Rattle.message.specs.Faults.{asks, count_ok, zeros_ok, gaps_ok, first_field_ok, last_field_ok, gapless};
ghost use Rattle.message.specs.Faults.{pattern_ok, enables_ok, fault_of};
ghost use Rattle.header.specs.Header.{ends_ok, kind_of, count_of, byte1_of, last_of, address_words, body_words};
ghost use Rattle.message.specs.Address.{address_from};

use header::Kind;
use header::refusal::{Refusal, check};

// Whether byte 0 is a request's.
fn asks_by(byte0: u32) -> bool
    ensures { result ≡ asks (kind_of byte0) }
{
    !matches!(header::kind_of(byte0), Kind::Response)
}

// Whether a command of this kind may have this count. A write and a read have an arm each: with one for both, both ends
// are slower where they were timed (docs/SPEED.md, "After the redesign").
pub fn count_ok(kind: Kind, count: usize) -> bool
    ensures { result ≡ count_ok kind count }
{
    match kind {
        Kind::Nop => count <= 2,
        Kind::Write => 1 <= count,
        Kind::Read => 1 <= count,
        Kind::Response => false,
    }
}

// Whether the enables of a write of this count are 0 only where its count allows it.
fn zeros_ok(count: usize, first: u32, last: u32) -> bool
    ensures { result ≡ zeros_ok count first last }
{
    match count {
        1 => last == 0,
        _ => match first {
            0 => false,
            1.. => last != 0,
        },
    }
}

// Whether a write of this count at this address may have gaps inside its enables.
fn gaps_ok(count: usize, address: u64) -> bool
    ensures { result ≡ gaps_ok count address }
{
    match count {
        0 => false,
        1 => true,
        2 => address % 8 == 0,
        3.. => false,
    }
}

// Whether a first field goes up to its word's end without a gap.
fn first_field_ok(first: u32) -> bool
    ensures { result ≡ first_field_ok first }
{
    matches!(first, 0x8 | 0xC | 0xE..=0xF)
}

// Whether a last field goes on from its word's start without a gap.
fn last_field_ok(last: u32) -> bool
    ensures { result ≡ last_field_ok last }
{
    matches!(last, 0xF | 0x7 | 0x3 | 0x1)
}

// Whether neither field has a gap.
fn gapless(first: u32, last: u32) -> bool
    ensures { result ≡ gapless first last }
{
    first_field_ok(first) && last_field_ok(last)
}

// Whether a write of this count at this address may have these enables for its first and its last word. That neither
// has a gap is asked first: most have none, both are then nonzero, and the address does not matter.
#[tactic(auto, using(crate::proofs::Laws::Faults::gapless_pattern), unfolding(crate::specs::Faults::pattern_ok))]
pub fn pattern_ok(count: usize, address: u64, first: u32, last: u32) -> bool
    ensures { result ≡ pattern_ok count address first last }
{
    if gapless(first, last) {
        return count != 1;
    }
    zeros_ok(count, first, last) && gaps_ok(count, address)
}

// The same of a header: whether its kind may have its count.
fn count_fits(byte0: u32, h: u32) -> bool
    ensures { result ≡ count_ok (kind_of byte0) (count_of h) }
{
    count_ok(header::kind_of(byte0), header::count(h))
}

// Whether the header h, at word `at` of a datagram, may have its enables: only a write's are looked at, and of its
// address the lowest word, which tells a multiple of 8.
#[tactic(auto, using(crate::proofs::Laws::Faults::enables_low))]
fn enables_fit(byte0: u32, h: u32, datagram: &[u8], at: usize) -> bool
    requires { 4 * (at + 1 + address_words byte0) ≤ length datagram.now }
    ensures { result ≡ enables_ok (kind_of byte0) (count_of h)
        (address_from (address_words byte0) (drop (at + 1) (words_of datagram.now))) (byte1_of h) }
{
    match header::kind_of(byte0) {
        Kind::Write => {
            let byte1 = header::byte1(h);
            let low = u64::from(word::word_at(datagram, at + 1));
            pattern_ok(header::count(h), low, byte1 % 16, byte1 / 16)
        },
        Kind::Nop | Kind::Read | Kind::Response => true,
    }
}

// The same of a header with `left` words after it.
fn ends_fit(byte0: u32, h: u32, left: usize) -> bool
    ensures { result ≡ ends_ok (last_of h) (body_words byte0 (count_of h)) left }
{
    header::ends_ok(header::last(h), header::body_words(byte0, h), left)
}

// The refusal of the header h, at word `at` of a datagram with `left` words after it, by its first fault in the
// document's order.
#[tactic(auto, unfolding(crate::specs::Faults::fault_of))]
pub(crate) fn fault(
    byte0: u32,
    h: u32,
    left: usize,
    datagram: &[u8],
    at: u32,
) -> Result<(), Refusal>
    requires { 4 * (at + 1 + left) ≤ length datagram.now }
    ensures { result ≡ as_result (refused_at (fault_of byte0 h left
        (address_from (address_words byte0) (drop (at + 1) (words_of datagram.now)))) at) }
{
    check(h % 256 == byte0, Refusal::BYTE_0, at)?;
    check(asks_by(byte0), Refusal::KIND, at)?;
    check(header::reserved(h) == 0, Refusal::RESERVED, at)?;
    check(count_fits(byte0, h), Refusal::COUNT, at)?;
    check(header::address_words(byte0) <= left, Refusal::PAST_END, at)?;
    check(
        enables_fit(byte0, h, datagram, at as usize),
        Refusal::ENABLES,
        at,
    )?;
    check(header::body_words(byte0, h) <= left, Refusal::PAST_END, at)?;
    check(ends_fit(byte0, h, left), Refusal::AFTER_LAST, at)
}
