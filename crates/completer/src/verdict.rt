// The verdict on a datagram: turned away, new, a repeat or a discovery.
ghost use Rattle.std.specs.Prelude.{◌≡◌, ◌*◌, ◌≤◌, length};
ghost use Rattle.header.specs.Limits.{limit, limit_bytes};
ghost use Rattle.message.specs.Walk.{read};
ghost use Rattle.tags.specs.Record.{places, request_at};
ghost use Rattle.completer.specs.Controller.{request_in};
ghost use Rattle.completer.specs.Verdict.{lent_ok, judged, as_kept, held_to, verdict_by};

use header::refusal::Refusal;
use message::walk;
use tags::record;
use tags::record::TagRecord;
use tags::rule::Verdict;
use tags::sound::Sound;
use word::run;

// Check 1 of memory and output.
fn lent_ok(memory: usize, output: usize) -> bool
    ensures { result ≡ lent_ok memory output }
{
    if memory < 1 {
        return false;
    }
    if memory > TagRecord::MEMORY {
        return false;
    }
    output >= TagRecord::BYTES
}

// Whether a datagram's bytes are those of the kept request of its tag.
fn same_request(kept: &[u8], tags: TagRecord, tag: u32, datagram: &[u8]) -> bool
    requires tag_bound { request_at tags tag ≤ limit }
    requires limit_bytes_in_bounds { places * limit_bytes ≤ length kept.now }
    ensures { result ≡ as_kept (request_in kept.now tags tag) datagram.now }
{
    let words = record::request_at(tags, tag);
    if datagram.len() != 4 * words {
        return false;
    }
    let at = TagRecord::BYTES * record::place(tag);
    run::same_words(&kept[at..], datagram, words)
}

// The verdict on any datagram where what is lent is right, before its bytes are compared: 2 to 10, then by the tag.
fn judge(sound: Sound, datagram: &[u8]) -> Result<Verdict, Refusal>
    ensures { result ≡ judged sound.tags (read datagram.now) }
{
    let byte0 = walk::walk(datagram)?;
    sound.rule(byte0)
}

// The verdict where what is lent is right: a repeat has to be the kept request of its tag.
fn hold(kept: &[u8], sound: Sound, datagram: &[u8]) -> Result<Verdict, Refusal>
    requires { places * limit_bytes ≤ length kept.now }
    ensures { result ≡ held_to kept.now sound.tags datagram.now
        (judged sound.tags (read datagram.now)) }
{
    match judge(sound, datagram)? {
        Verdict::Repeat(tag) if !same_request(kept, sound.tags, tag, datagram) => {
            Err(Refusal::of(Refusal::OTHER_BYTES))
        },
        verdict => Ok(verdict),
    }
}

// The verdict on any datagram, whatever is lent.
pub fn verdict_of(
    memory: usize,
    stored: usize,
    kept: &[u8],
    output: usize,
    tags: TagRecord,
    datagram: &[u8],
) -> Result<Verdict, Refusal>
    ensures { result ≡ verdict_by memory stored kept.now output tags datagram.now }
{
    if !lent_ok(memory, output) || !record::kept_ok(stored, kept.len(), tags) {
        return Err(Refusal::of(Refusal::LENT));
    }
    hold(kept, Sound::of(tags), datagram)
}
