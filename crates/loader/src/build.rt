// The refusal of a request; building one: begin, add, close.
//
// The building record is lent and changed in place. Each of the three calls is a thin layer over a function that has
// the record by value; a refused call leaves the record and the output as they were.
ghost use Rattle.std.specs.Prelude.{◌≡◌, length};
ghost use Rattle.message.specs.Walk.{read};
ghost use Rattle.message.specs.Request.{refusal_in};
ghost use Rattle.building.specs.Build.{added, added_to, closed, closed_to};
ghost use Rattle.building.specs.Promises.{over};
ghost use Rattle.loader.specs.Build.{asking, leaves, begun_over};

use building::asked::Asked;
use building::build;
use building::record::Building;
use header::refusal::Refusal;
use message::walk;

// The refusal, 2 to 10, of a request by any controller, at the header that is refused; number 0 where it is
// well-formed.
pub fn charkhavo_refusal(request: &[u8]) -> Refusal
    ensures { result ≡ refusal_in (read request.now) }
{
    match walk::walk(request) {
        Ok(_) => Refusal::of(Refusal::NONE),
        Err(refusal) => refusal,
    }
}

// Leaves the new record where the old one was; refused, that one stays.
fn leave(building: &mut Building, gave: Result<Building, Refusal>) -> Refusal
    ensures { leaves result building.new ≡ over building.old gave }
{
    match gave {
        Ok(new) => {
            *building = new;
            Refusal::of(Refusal::NONE)
        }
        Err(refusal) => refusal,
    }
}

// Begins a message in the lent output, of which it changes no byte; 21. The record is then the message's; refused, it
// is as it was.
pub fn charkhavo_begin(
    output: &[u8],
    building: &mut Building,
    kind: u32,
    tag: u32,
    wide: bool,
    discovery: bool,
) -> Refusal
    ensures { leaves result building.new
        ≡ begun_over (length output.now) building.old kind tag wide discovery }
{
    leave(building, build::begin(output, kind, tag, wide, discovery))
}

// Adds a command, with the data of a write or NOP; 21 to 26. Only the command's bytes and the record change; refused,
// nothing.
pub fn charkhavo_add(
    output: &mut [u8],
    building: &mut Building,
    address: u64,
    first: u32,
    last: u32,
    count: usize,
    payload: &[u32],
) -> Refusal
    ensures { (leaves result building.new
        ≡ added output.old building.old (asking address first last count) payload.now)
        × (output.new
        ≡ added_to output.old building.old (asking address first last count)
        payload.now) }
{
    let asked = Asked {
        address,
        first,
        last,
        count,
    };
    leave(building, build::add(output, *building, asked, payload))
}

// Closes the message; 21, 22. Only the LAST bit of its last header and the record change; refused, nothing.
pub fn charkhavo_close(output: &mut [u8], building: &mut Building) -> Refusal
    ensures { (leaves result building.new ≡ closed output.old building.old) ×
        (output.new ≡ closed_to output.old building.old) }
{
    leave(building, build::close(output, *building))
}
