// The messages of the night, by their number.
use building::asked::Asked;
use channel_run::Bytes;
use header::Kind;

// Message i: two of three write a word that says their number, the third reads the word before.
pub(crate) fn compose(i: u32) -> Bytes {
    let (kind, word) = match i % 3 {
        2 => (Kind::Read, i % 8 + 7),
        _ => (Kind::Write, i % 8),
    };
    let asked = Asked {
        address: u64::from(4 * (word % 8)),
        first: 15,
        last: 0,
        count: 1,
    };
    channel_run::compose(u32::from(kind), i % 16, asked, 0xc0de0000 + i % 256)
}
