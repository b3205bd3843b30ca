// The static library of the loader's end, out/libloader_c.a: every call of `loader`, exported to C under its name.
//
// Each function is one of `loader`, with its parameters in their order, its types and its clauses. `include/charkhavo.h`
// declares what C sees.
#![tactic(auto)]

ghost use Rattle.std.specs.Prelude.{◌≡◌, ◌+◌, ◌≤◌, length};
ghost use Rattle.message.specs.Walk.{read};
ghost use Rattle.message.specs.Request.{refusal_in};
ghost use Rattle.building.specs.Build.{added, added_to, closed, closed_to};
ghost use Rattle.initiator.specs.Sender.{fresh_sender, start_of, offer_of, take_of};
ghost use Rattle.initiator.specs.Outcome.{judged_by, count_in};
ghost use Rattle.layout.specs.Layout.{set_up_fault};
ghost use Rattle.table.specs.Calls.{beginning, made_to};
ghost use Rattle.loader.specs.Build.{asking, leaves, begun_over};
ghost use Rattle.loader.specs.Sending.{sending_of, fixed_discovery};
ghost use Rattle.loader.specs.Outcome.{status_number, data_part};
ghost use Rattle.loader.specs.Training.{attempt_of, numbers_of, table_made_of, table_taken_of};

use building::record::Building;
use header::refusal::Refusal;
use initiator::sender::{Moved, Sender, Taken};
use loader::outcome::Part;
use loader::sending::{Discovery, Sending};
use loader::training::{TableAttempt, TableMade, TableTaken};
use loader::{build, outcome, sending, training};

// The refusal of a request; building one: begin, add, close.

#[unsafe(no_mangle)]
pub extern "C" fn charkhavo_refusal(request: &[u8]) -> Refusal
    ensures { result ≡ refusal_in (read request.now) }
{
    build::charkhavo_refusal(request)
}

#[unsafe(no_mangle)]
pub extern "C" fn charkhavo_begin(
    output: &[u8],
    building: &mut Building,
    kind: u32,
    tag: u32,
    wide: bool,
    discovery: bool,
) -> Refusal
    ensures { leaves result building.new
        ≡ begun_over (length output.now) building.old kind tag wide discovery }
{
    build::charkhavo_begin(output, building, kind, tag, wide, discovery)
}

#[unsafe(no_mangle)]
pub extern "C" fn charkhavo_add(
    output: &mut [u8],
    building: &mut Building,
    address: u64,
    first: u32,
    last: u32,
    count: usize,
    payload: &[u32],
) -> Refusal
    ensures { (leaves result building.new
        ≡ added output.old building.old (asking address first last count) payload.now)
        × (output.new
        ≡ added_to output.old building.old (asking address first last count)
        payload.now) }
{
    build::charkhavo_add(output, building, address, first, last, count, payload)
}

#[unsafe(no_mangle)]
pub extern "C" fn charkhavo_close(output: &mut [u8], building: &mut Building) -> Refusal
    ensures { (leaves result building.new ≡ closed output.old building.old) ×
        (output.new ≡ closed_to output.old building.old) }
{
    build::charkhavo_close(output, building)
}

// The fixed discovery, and the sender.

#[unsafe(no_mangle)]
pub extern "C" fn charkhavo_discovery() -> Discovery
    ensures { result ≡ fixed_discovery }
{
    sending::charkhavo_discovery()
}

#[unsafe(no_mangle)]
pub extern "C" fn charkhavo_fresh() -> Sender
    ensures { result ≡ fresh_sender }
{
    sending::charkhavo_fresh()
}

#[unsafe(no_mangle)]
pub extern "C" fn charkhavo_discovered(answer: &[u8]) -> Moved
    ensures { result ≡ start_of answer.now }
{
    sending::charkhavo_discovered(answer)
}

#[unsafe(no_mangle)]
pub extern "C" fn charkhavo_offer(sender: Sender, message: &[u8]) -> Moved
    ensures { result ≡ offer_of sender message.now }
{
    sending::charkhavo_offer(sender, message)
}

#[unsafe(no_mangle)]
pub extern "C" fn charkhavo_send(sender: Sender, message: &[u8]) -> Sending
    ensures { result ≡ sending_of sender message.now }
{
    sending::charkhavo_send(sender, message)
}

#[unsafe(no_mangle)]
pub extern "C" fn charkhavo_take(sender: Sender, message: &[u8], answer: &[u8]) -> Taken
    ensures { result ≡ take_of sender message.now answer.now }
{
    sending::charkhavo_take(sender, message, answer)
}

// What an accepted answer tells.

#[unsafe(no_mangle)]
pub extern "C" fn charkhavo_count(request: &[u8], answer: &[u8]) -> usize
    ensures { result ≡ count_in (judged_by (read request.now) answer.now) }
{
    outcome::charkhavo_count(request, answer)
}

#[unsafe(no_mangle)]
pub extern "C" fn charkhavo_status(request: &[u8], answer: &[u8], k: usize) -> u32
    ensures { result ≡ status_number request.now answer.now k }
{
    outcome::charkhavo_status(request, answer, k)
}

#[unsafe(no_mangle)]
pub extern "C" fn charkhavo_read_data(request: &[u8], answer: &[u8], k: usize) -> Part
    ensures value { result ≡ data_part request.now answer.now k }
    ensures inside { result.start + result.length ≤ length answer.now }
{
    outcome::charkhavo_read_data(request, answer, k)
}

// The training table.

#[unsafe(no_mangle)]
pub extern "C" fn charkhavo_set_up(start: u64, room: u64) -> u32
    ensures { result ≡ set_up_fault start room }
{
    training::charkhavo_set_up(start, room)
}

#[unsafe(no_mangle)]
pub extern "C" fn charkhavo_attempt(sender: Sender) -> TableAttempt
    ensures { result ≡ numbers_of (beginning sender) }
{
    training::charkhavo_attempt(sender)
}

#[unsafe(no_mangle)]
pub extern "C" fn charkhavo_table_message(
    output: &mut [u8],
    attempt: TableAttempt,
    start: u64,
    room: u64,
    rows: &[u32; 168],
) -> TableMade
    ensures { (result ≡ table_made_of attempt start room rows.now output.old)
        × (output.new ≡ made_to (attempt_of attempt) start room rows.now output.old) }
{
    training::charkhavo_table_message(output, attempt, start, room, rows)
}

#[unsafe(no_mangle)]
pub extern "C" fn charkhavo_table_take(
    attempt: TableAttempt,
    message: &[u8],
    answer: &[u8],
    rows: &[u32; 168],
) -> TableTaken
    ensures { result ≡ table_taken_of attempt message.now answer.now rows.now }
{
    training::charkhavo_table_take(attempt, message, answer, rows)
}
