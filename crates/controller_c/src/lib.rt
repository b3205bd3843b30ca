// The static library of the controller's call, which the firmware's main loop links.
//
// Its one export calls the library's function, with the same clauses: no crate can be a library and a static library.
#![tactic(auto)]

ghost use Rattle.std.specs.Prelude.{◌≡◌};
ghost use Rattle.completer.specs.Controller.{lent, left};
ghost use Rattle.completer.specs.Serving.{after};

use controller::Sent;
use tags::record::TagRecord;

// `controller::charkhavo_serve`, under that name in C.
#[unsafe(no_mangle)]
pub extern "C" fn charkhavo_serve(
    memory: &mut [u32],
    kept: &mut [u8],
    stored: &mut [u32],
    output: &mut [u8],
    tags: &mut TagRecord,
    datagram: &[u8],
) -> Sent
    ensures { left result.refusal result.sent
        (lent memory.new stored.new kept.new tags.new) output.new
        ≡ after
        (lent memory.old stored.old kept.old tags.old) output.old
        datagram.now }
{
    controller::charkhavo_serve(memory, kept, stored, output, tags, datagram)
}
