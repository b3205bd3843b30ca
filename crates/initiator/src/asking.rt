// 31: whether a request may be asked.
ghost use Rattle.std.specs.Prelude.{◌≡◌, cond, eqb, Ok, Err};
ghost use Rattle.header.specs.Header.{discovery_of};
ghost use Rattle.header.specs.Refusal.{refusal};
ghost use Rattle.message.specs.Walk.{read};
ghost use Rattle.initiator.specs.Asking.{plainly, asked_as, asking_of};

use header::refusal::Refusal;
use message::walk;

// A well-formed request of this byte 0: 31 for the discovery bit.
fn plain(byte0: u32) -> Result<u32, Refusal>
    ensures { result ≡ cond (discovery_of byte0) (Err (refusal 31)) (Ok byte0) }
{
    if header::discovery(byte0) {
        return Err(Refusal::of(Refusal::REQUEST));
    }
    Ok(byte0)
}

// Byte 0 of any request that may be asked, its tag aside: 31 at the header that a controller would refuse, or for the
// discovery bit.
pub fn ask(request: &[u8]) -> Result<u32, Refusal>
    ensures { result ≡ asking_of (plainly (read request.now)) }
{
    match walk::walk(request) {
        Ok(byte0) => plain(byte0),
        Err(refusal) => Err(Refusal {
            number: Refusal::REQUEST,
            at: refusal.at,
        }),
    }
}

// Byte 0 of a message that may be asked under this tag: 31 for another tag too.
pub fn ask_as(tag: u32, message: &[u8]) -> Result<u32, Refusal>
    ensures { result ≡ asking_of (asked_as (eqb tag) (read message.now)) }
{
    let byte0 = ask(message)?;
    if tag != header::tag(byte0) {
        return Err(Refusal::of(Refusal::REQUEST));
    }
    Ok(byte0)
}
