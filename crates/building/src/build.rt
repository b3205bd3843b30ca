// Building a message in a lent output: begin, add, close.
//
// Every call takes any record and any buffers. A refusal, 21 to 26, changes nothing; else only the added command's
// bytes change, or the LAST bit of the last header.
ghost use Rattle.std.specs.Prelude.{◌≡◌, ◌+◌, ◌*◌, ◌<◌, ◌≤◌, false, ◌∷◌, ◌++◌, length};
ghost use Rattle.word.specs.Words.{put_words, longest};
ghost use Rattle.header.specs.Header.{kind_of};
ghost use Rattle.header.specs.Refusal.{refusal, as_result};
ghost use Rattle.message.specs.Address.{address_in, address_top};
ghost use Rattle.message.specs.Request.{command_words};
ghost use Rattle.building.specs.Record.{byte0_by};
ghost use Rattle.building.specs.Asked.{count_by, command_by};
ghost use Rattle.building.specs.Build.{built_of, begun, usable, add_fault, close_fault, grown, last_set, added, added_to};
ghost use Rattle.building.specs.Build.{closed, closed_to};

use crate::asked::Asked;
use crate::record::Building;
use crate::{asked, record};
use header::limits;
use header::refusal::{Refusal, check};
use message::address;

// Begins a message in the lent output, of which it changes no byte.
#[tactic(auto, unfolding(crate::specs::Build::begun, crate::specs::Build::opened))]
pub fn begin(
    out: &[u8],
    kind: u32,
    tag: u32,
    wide: bool,
    discovery: bool,
) -> Result<Building, Refusal>
    ensures { result ≡ built_of (begun (length out.now) kind tag wide discovery) }
{
    check(
        limits::LIMIT_BYTES <= out.len() && record::start_ok(kind, tag),
        Refusal::BUILDING,
        0,
    )?;
    Ok(Building {
        kind,
        tag,
        wide,
        discovery,
        words: 0,
        last: 0,
        answer: 0,
        closed: false,
    })
}

impl Building {
    // Whether the output is long enough and the record one that some sequence of calls gives.
    fn usable(self, room: usize) -> bool
        ensures { result ≡ usable room self }
    {
        limits::LIMIT_BYTES <= room && self.reached()
    }

    // The refusal of adding.
    #[tactic(auto, unfolding(crate::specs::Build::add_fault))]
    fn add_fault(self, room: usize, asked: Asked, lent: usize) -> Result<(), Refusal>
        ensures { result ≡ as_result (refusal (add_fault room self asked lent)) }
    {
        check(self.usable(room), Refusal::BUILDING, 0)?;
        check(!self.closed, Refusal::CLOSING, 0)?;
        let byte0 = self.byte0();
        let count = asked::count_by(header::kind_of(byte0), asked.count, lent);
        asked::command_fault(byte0, self.words, self.answer, asked, count)
    }

    // The refusal of closing.
    #[tactic(auto, unfolding(crate::specs::Build::close_fault))]
    fn close_fault(self, room: usize) -> Result<(), Refusal>
        ensures { result ≡ as_result (refusal (close_fault room self)) }
    {
        check(self.usable(room), Refusal::BUILDING, 0)?;
        check(!self.closed && self.words != 0, Refusal::CLOSING, 0)
    }
}

// A command: its header, then its address, then its data, into the output from word `at` on. Every other byte stays.
fn put_command(out: &mut [u8], at: usize, h: u32, n: usize, address: u64, payload: &[u32])
    requires { (n ≤ 2)
        × (address < address_top n)
        × (length payload.now ≤ longest)
        × (4 * (at + (1 + (n + length payload.now))) ≤ length out.old) }
    ensures { out.new ≡ put_words out.old at
        (h ∷ (address_in n address ++ payload.now)) }
{
    word::put_word(out, at, h);
    address::put_address(out, at + 1, n, address);
    word::run::put_words(out, at + 1 + n, payload);
}

// Puts a command that nothing is wrong with behind the words so far, and counts it.
fn place(out: &mut [u8], b: Building, asked: Asked, payload: &[u32]) -> Building
    requires { add_fault (length out.old) b asked (length payload.now) ≡ 0 }
    ensures { (result ≡ grown b (count_by (kind_of (byte0_by b)) asked.count (length payload.now))) ×
        (out.new
        ≡ put_words out.old b.words
        (command_words (byte0_by b) false (command_by (byte0_by b) asked payload.now))) }
{
    let byte0 = b.byte0();
    let kind = header::kind_of(byte0);
    let count = asked::count_by(kind, asked.count, payload.len());
    let h = asked::header_by(byte0, asked, count);
    let n = header::address_words(byte0);
    let sent = header::data_words(kind, payload.len());
    put_command(
        out,
        b.words,
        h,
        n,
        asked::address_sent(kind, asked.address),
        &payload[..sent],
    );
    Building {
        words: b.words + asked::size_by(byte0, count),
        last: b.words,
        answer: b.answer + asked::reply_by(byte0, count),
        ..b
    }
}

// Adds a command, with the data of a write or NOP.
#[tactic(auto, unfolding(crate::specs::Build::added, crate::specs::Build::added_to))]
pub fn add(out: &mut [u8], b: Building, asked: Asked, payload: &[u32]) -> Result<Building, Refusal>
    ensures { (result ≡ built_of (added out.old b asked payload.now)) ×
        (out.new ≡ added_to out.old b asked payload.now) }
{
    b.add_fault(out.len(), asked, payload.len())?;
    Ok(place(out, b, asked, payload))
}

// Sets the LAST bit of the header at word `at`.
#[tactic(auto, using(word::proofs::Runs::put_one), unfolding(crate::specs::Build::last_set))]
fn set_last(out: &mut [u8], at: usize)
    requires { 4 * at + 4 ≤ length out.old }
    ensures { out.new ≡ last_set out.old at }
{
    let i = 4 * at + 3;
    out[i] = out[i] % 128 + 128;
}

// Closes the message: its last command is LAST.
#[tactic(auto, unfolding(crate::specs::Build::closed, crate::specs::Build::closed_to, crate::specs::Build::shut))]
pub fn close(out: &mut [u8], b: Building) -> Result<Building, Refusal>
    ensures { (result ≡ built_of (closed out.old b)) × (out.new ≡ closed_to out.old b) }
{
    b.close_fault(out.len())?;
    set_last(out, b.last);
    Ok(Building { closed: true, ..b })
}
