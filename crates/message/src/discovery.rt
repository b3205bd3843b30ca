// The fixed discovery.
ghost use Rattle.std.specs.Prelude.{◌≡◌};
ghost use Rattle.message.specs.Discovery.{discovery_bytes};

use header::limits;

// Its bytes: 80020080, the most bytes of a message, 0.
pub fn bytes() -> [u8; 12]
    ensures { result ≡ discovery_bytes }
{
    let [a, b, c, d] = (limits::LIMIT_BYTES as u32).to_le_bytes();
    [0x80, 0, 2, 0x80, a, b, c, d, 0, 0, 0, 0]
}
