// The controller's call in place, for its main loop: the tag record is lent by reference.
//
// The one function is what the firmware's static library exports, through `controller_c`; it holds the whole call.
#![tactic(auto)]

ghost use Rattle.std.specs.Prelude.{◌≡◌};
ghost use Rattle.completer.specs.Controller.{lent, left};
ghost use Rattle.completer.specs.Serving.{after};

use completer::serving;
use header::refusal::Refusal;
use tags::record::TagRecord;

// What a call gives beside the record: the refusal (number 0: none) and the bytes sent, which stand at the front of the
// output.
#[repr(C)]
#[derive(Clone, Copy)]
pub struct Sent {
    pub refusal: Refusal,
    pub sent: usize,
}

// One datagram served, for any buffers, any record and any bytes; the record then holds what the call makes of it. The
// kept requests stand before the stored answers: the compiler's registers are best in that order.
pub fn charkhavo_serve(
    memory: &mut [u32],
    kept: &mut [u8],
    stored: &mut [u32],
    output: &mut [u8],
    tags: &mut TagRecord,
    datagram: &[u8],
) -> Sent
    ensures { left result.refusal result.sent
        (lent memory.new stored.new kept.new tags.new) output.new
        ≡ after
        (lent memory.old stored.old kept.old tags.old) output.old
        datagram.now }
{
    match serving::serve(memory, stored, kept, output, tags, datagram) {
        Ok(sent) => Sent {
            refusal: Refusal::of(Refusal::NONE),
            sent,
        },
        Err(refusal) => Sent { refusal, sent: 0 },
    }
}
