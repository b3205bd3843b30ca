// The limit of every message and every answer, whether a datagram keeps it, and the number of tags.
ghost use Rattle.std.specs.Prelude.{◌≡◌};
ghost use Rattle.header.specs.Limits.{length_ok};

// The most words of a message or an answer, and the most bytes.
pub const LIMIT: usize = 2243;

pub const LIMIT_BYTES: usize = 4 * LIMIT;

// Tags go from 0 to 15.
pub const TAGS: u32 = 16;

// Whether a datagram may have this many bytes.
pub fn length_ok(bytes: usize) -> bool
    ensures { result ≡ length_ok bytes }
{
    bytes != 0 && bytes % 4 == 0 && bytes <= LIMIT_BYTES
}
