// The tag record: how many messages are held, the newest one's tag, and the lengths of each one's answer and request.
ghost use Rattle.std.specs.Prelude.{◌≡◌, true, cond, ◌&&◌, eqb, ◌<◌};
ghost use Rattle.header.specs.Limits.{tag_count};
ghost use Rattle.tags.specs.Record.{places, fresh_record, place_of, words_ok, place_ok, places_ok, held_ok};
ghost use Rattle.tags.specs.Record.{record_ok, kept_ok, words_at, request_at, written, one_more, record_by};

use header::limits;

// What the controller keeps of the last messages beside their bytes and their answers: how many are held, the tag of
// the newest, and at each place the words of the stored answer and those of the kept request. A place that is not held
// is never looked at.
#[repr(C)]
#[derive(Clone, Copy)]
pub struct TagRecord {
    pub held: u32,
    pub tag: u32,
    pub words: [u32; 4],
    pub request: [u32; 4],
}

impl TagRecord {
    // The most words of a message, and so of a stored answer.
    pub const WORDS: usize = limits::LIMIT;
    // The same in bytes: the least of an output; advertisement word 0.
    pub const BYTES: usize = limits::LIMIT_BYTES;
    // The most messages that are held, each at a place of its own.
    pub const PLACES: u32 = 4;
    // The least words that the stored answers are lent in.
    pub const STORED: usize = 4 * limits::LIMIT;
    // The least bytes that the kept requests are lent in.
    pub const KEPT: usize = 4 * limits::LIMIT_BYTES;
    // The most words of memory.
    pub const MEMORY: usize = 16384;

    // The record of a controller that has seen no message.
    pub fn fresh() -> TagRecord
        ensures { result ≡ fresh_record }
    {
        TagRecord {
            held: 0,
            tag: 0,
            words: [0, 0, 0, 0],
            request: [0, 0, 0, 0],
        }
    }
}

// The place of a tag's answer and request.
pub fn place(tag: u32) -> usize
    ensures value { result ≡ place_of tag }
    ensures below { result < 4 }
{
    (tag % TagRecord::PLACES) as usize
}

// Whether an answer or a request may have this many words.
fn words_ok(words: u32) -> bool
    ensures { result ≡ words_ok words }
{
    words >= 1 && words as usize <= TagRecord::WORDS
}

// The two lengths of a place. Both are looked at, so that the compiler asks for four places at once.
fn lengths_ok(words: u32, request: u32) -> bool
    ensures { result ≡ (words_ok words && words_ok request) }
{
    let answered = words_ok(words);
    let asked = words_ok(request);
    answered & asked
}

// Check 1 of a place, whose message is so far back from the newest.
fn place_ok(held: u32, back: u32, words: u32, request: u32) -> bool
    ensures { result ≡ place_ok held back words request }
{
    let both = lengths_ok(words, request);
    (back >= held) | both
}

// Check 1 of the four places where all are held: how far back each one's message is does not matter.
fn all_ok(tags: TagRecord) -> bool
    requires { tags.held ≡ places }
    ensures { result ≡ places_ok tags }
{
    let words = tags.words;
    let request = tags.request;
    let a = lengths_ok(words[0], request[0]);
    let b = lengths_ok(words[1], request[1]);
    let c = lengths_ok(words[2], request[2]);
    let d = lengths_ok(words[3], request[3]);
    a & b & c & d
}

// Check 1 of the four places.
fn places_ok(tags: TagRecord) -> bool
    requires { tags.tag < tag_count }
    ensures { result ≡ places_ok tags }
{
    let held = tags.held;
    if held == TagRecord::PLACES {
        return all_ok(tags);
    }
    let newest = tags.tag;
    let words = tags.words;
    let request = tags.request;
    let a = place_ok(held, (newest + 4) % 4, words[0], request[0]);
    let b = place_ok(held, (newest + 3) % 4, words[1], request[1]);
    let c = place_ok(held, (newest + 2) % 4, words[2], request[2]);
    let d = place_ok(held, (newest + 1) % 4, words[3], request[3]);
    a & b & c & d
}

// Check 1 of a record that is not fresh.
fn held_ok(tags: TagRecord) -> bool
    ensures { result ≡ held_ok tags }
{
    if tags.held > TagRecord::PLACES {
        return false;
    }
    if tags.tag >= limits::TAGS {
        return false;
    }
    places_ok(tags)
}

// Check 1 of the record.
pub fn record_ok(tags: TagRecord) -> bool
    ensures { result ≡ record_ok tags }
{
    tags.held == 0 || held_ok(tags)
}

// Check 1 of the record, the stored answers and the kept requests.
pub fn kept_ok(stored: usize, kept: usize, tags: TagRecord) -> bool
    ensures { result ≡ kept_ok stored kept tags }
{
    if !record_ok(tags) {
        return false;
    }
    if stored < TagRecord::STORED {
        return false;
    }
    kept >= TagRecord::KEPT
}

// The words of the answer that is stored for a tag.
pub fn words_at(tags: TagRecord, tag: u32) -> usize
    ensures { result ≡ words_at tags tag }
{
    let at = place(tag);
    tags.words[at] as usize
}

// The words of the request that is kept for a tag.
pub fn request_at(tags: TagRecord, tag: u32) -> usize
    ensures { result ≡ request_at tags tag }
{
    let at = place(tag);
    tags.request[at] as usize
}

// A place's length: n at the place `at`, else what it was.
fn one_at(at: usize, place: usize, n: u32, was: u32) -> u32
    ensures { result ≡ cond (eqb at place) n was }
{
    if at == place {
        return n;
    }
    was
}

// Four lengths with n at the place `at`; the other three stay.
fn write_at(lengths: [u32; 4], at: usize, n: u32) -> [u32; 4]
    ensures { result ≡ written lengths at n }
{
    [
        one_at(at, 0, n, lengths[0]),
        one_at(at, 1, n, lengths[1]),
        one_at(at, 2, n, lengths[2]),
        one_at(at, 3, n, lengths[3]),
    ]
}

// One message more held, of four at most.
fn one_more(held: u32) -> u32
    ensures { result ≡ one_more held }
{
    if held < TagRecord::PLACES {
        return held + 1;
    }
    TagRecord::PLACES
}

// The record after a message of so many words was carried out and kept, whose answer has n words.
pub fn record_after(tags: TagRecord, byte0: u32, n: u32, request: u32) -> TagRecord
    ensures { result ≡ record_by true tags byte0 n request }
{
    let tag = header::tag(byte0);
    let at = place(tag);
    TagRecord {
        held: one_more(tags.held),
        tag,
        words: write_at(tags.words, at, n),
        request: write_at(tags.request, at, request),
    }
}
