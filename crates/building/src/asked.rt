// The command that is asked for, and what can be wrong with it: 23 to 26.
ghost use Rattle.std.specs.Prelude.{◌≡◌, ◌<◌, ◌≤◌, true, false};
ghost use Rattle.header.specs.Header.{kind_of, header_from};
ghost use Rattle.header.specs.Refusal.{refusal, as_result};
ghost use Rattle.building.specs.Asked.{count_by, byte1_by, address_sent, count_fits, fields_ok, enables_fit};
ghost use Rattle.building.specs.Asked.{narrow_ok, address_fits, size_by, reply_by, room_fits, command_fault};

use header::refusal::{Refusal, check};
use header::{Kind, limits};
use message::faults;

// A command to add: its address, the enables of a write's first and last word, the count of a read. Enables are numbers
// that can be wrong; what a kind has no use for is not looked at.
#[derive(Clone, Copy)]
pub struct Asked {
    pub address: u64,
    pub first: u32,
    pub last: u32,
    pub count: usize,
}

// The count of a command: a read's as asked, else the number of data words lent.
pub(crate) fn count_by(kind: Kind, asked: usize, lent: usize) -> usize
    ensures { result ≡ count_by kind asked lent }
{
    match kind {
        Kind::Read => asked,
        Kind::Nop | Kind::Write | Kind::Response => lent,
    }
}

// Byte 1: a write's enables, else 0.
#[tactic(auto, unfolding(crate::specs::Asked::fields_ok))]
fn byte1_by(kind: Kind, count: usize, asked: Asked) -> u32
    requires { enables_fit kind count asked ≡ true }
    ensures value { result ≡ byte1_by kind asked.first asked.last }
    ensures below { result < 256 }
{
    match kind {
        Kind::Write => asked.first + 16 * asked.last,
        Kind::Nop | Kind::Read | Kind::Response => 0,
    }
}

// The address that is sent: a NOP has none.
pub(crate) fn address_sent(kind: Kind, address: u64) -> u64
    ensures value { result ≡ address_sent kind address }
    ensures below { result < 18446744073709551616 }
{
    match kind {
        Kind::Write | Kind::Read => address,
        Kind::Nop | Kind::Response => 0,
    }
}

// Whether a command of this kind may have this count.
#[tactic(auto, unfolding(crate::specs::Asked::count_fits))]
fn count_fits(kind: Kind, count: usize) -> bool
    ensures { result ≡ count_fits kind count }
{
    count < 4096 && faults::count_ok(kind, count)
}

// Whether these are two fields of four bits that a write of this count may have at its address.
#[tactic(auto, unfolding(crate::specs::Asked::fields_ok))]
fn fields_ok(count: usize, asked: Asked) -> bool
    ensures { result ≡ fields_ok count asked }
{
    asked.first < 16
        && asked.last < 16
        && faults::pattern_ok(count, asked.address, asked.first, asked.last)
}

// Whether a command of this kind and count may have its enables: only writes are looked at.
fn enables_fit(kind: Kind, count: usize, asked: Asked) -> bool
    ensures { result ≡ enables_fit kind count asked }
{
    match kind {
        Kind::Write => fields_ok(count, asked),
        Kind::Nop | Kind::Read | Kind::Response => true,
    }
}

// Whether the address has no more bits than the message's addresses.
#[tactic(auto, unfolding(crate::specs::Asked::narrow_ok))]
fn narrow_ok(wide: bool, address: u64) -> bool
    ensures { result ≡ narrow_ok wide address }
{
    wide || address < 4294967296
}

// The same for any kind: a NOP's is not looked at.
fn address_fits(kind: Kind, wide: bool, address: u64) -> bool
    ensures { result ≡ address_fits kind wide address }
{
    match kind {
        Kind::Write | Kind::Read => narrow_ok(wide, address),
        Kind::Nop | Kind::Response => true,
    }
}

// The words of a command in a message of this byte 0.
#[tactic(auto, unfolding(crate::specs::Asked::size_by))]
pub(crate) fn size_by(byte0: u32, count: usize) -> usize
    requires { count < 4096 }
    ensures value { result ≡ size_by byte0 count }
    ensures below { result < 4099 }
{
    1 + (header::address_words(byte0) + header::data_words(header::kind_of(byte0), count))
}

// The words of its OK answer.
#[tactic(auto, unfolding(crate::specs::Asked::reply_by))]
pub(crate) fn reply_by(byte0: u32, count: usize) -> usize
    requires { count < 4096 }
    ensures value { result ≡ reply_by byte0 count }
    ensures below { result < 4099 }
{
    1 + header::reply_words(header::kind_of(byte0), count)
}

// Whether request and all-OK answer stay within the limit with a command more.
#[tactic(auto, unfolding(crate::specs::Asked::room_fits))]
fn room_fits(byte0: u32, words: usize, answer: usize, count: usize) -> bool
    requires { count < 4096 }
    ensures { result ≡ room_fits byte0 words answer count }
{
    words.saturating_add(size_by(byte0, count)) <= limits::LIMIT
        && answer.saturating_add(reply_by(byte0, count)) <= limits::LIMIT
}

// What is wrong with a command of this count, 23 to 26.
#[tactic(auto, unfolding(crate::specs::Asked::command_fault, crate::specs::Asked::count_fits))]
pub(crate) fn command_fault(
    byte0: u32,
    words: usize,
    answer: usize,
    asked: Asked,
    count: usize,
) -> Result<(), Refusal>
    ensures { result ≡ as_result (refusal (command_fault byte0 words answer asked count)) }
{
    let kind = header::kind_of(byte0);
    let wide = header::wide(byte0);
    check(count_fits(kind, count), Refusal::ADDED_COUNT, 0)?;
    check(enables_fit(kind, count, asked), Refusal::ADDED_ENABLES, 0)?;
    check(
        address_fits(kind, wide, asked.address),
        Refusal::ADDED_ADDRESS,
        0,
    )?;
    check(room_fits(byte0, words, answer, count), Refusal::NO_ROOM, 0)
}

// The header of a command that others may follow.
pub(crate) fn header_by(byte0: u32, asked: Asked, count: usize) -> u32
    requires { (byte0 < 256)
        × (count < 4096)
        × (enables_fit (kind_of byte0) count asked ≡ true) }
    ensures { result ≡ header_from byte0 (byte1_by (kind_of byte0) asked.first asked.last) count false }
{
    let byte1 = byte1_by(header::kind_of(byte0), count, asked);
    header::header_from(byte0, byte1, count, false)
}
