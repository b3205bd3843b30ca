// The messages, by life and number, tagged from the first tag of the life on.
use building::asked::Asked;
use channel_run::Bytes;
use header::Kind;

// Message i of life n writes 100 n + i (hexadecimal) to word i modulo 3; the twelfth life's first message reads all
// three words. The count is of a read alone.
pub(crate) fn compose(n: u32, first: u32, i: u32) -> Bytes {
    let kind = match (n, i) {
        (12, 0) => Kind::Read,
        _ => Kind::Write,
    };
    let asked = Asked {
        address: u64::from(4 * (i % 3)),
        first: 15,
        last: 0,
        count: 3,
    };
    channel_run::compose(
        u32::from(kind),
        (first % 16 + i % 16) % 16,
        asked,
        256 * (n % 256) + i % 256,
    )
}
