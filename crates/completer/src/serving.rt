// The controller's call: what follows from the verdict on a datagram.
ghost use Rattle.std.specs.Prelude.{◌≡◌, ◌≢◌, cond, ◌+◌, ◌*◌, ◌%◌, ◌<◌, ◌≤◌, length, Ok, IfErr};
ghost use Rattle.header.specs.Limits.{limit, limit_bytes};
ghost use Rattle.message.specs.Request.{Means};
ghost use Rattle.message.specs.Walk.{read, request_of};
ghost use Rattle.tags.specs.Record.{places, place_of, words_at};
ghost use Rattle.completer.specs.Controller.{lent, left};
ghost use Rattle.completer.specs.Serving.{after_by, after};
ghost use Rattle.completer.specs.Settling.{gave, sent_by, record_with, follows, SendsAgain, kept_by};
ghost use Rattle.tags.specs.declared.rule.Verdict.TheVariants.{New, Discovery};

use crate::verdict;
use carrying::carry;
use header::refusal::Refusal;
use tags::record;
use tags::record::TagRecord;
use tags::rule::Verdict;
use tags::sound::Sound;
use word::run;

// What a message that is not refused came to: the bytes sent, which stand at the front of the output, and the message,
// if it is kept.
#[derive(Clone, Copy)]
pub struct Done {
    pub sent: usize,
    pub kept: Option<Kept>,
}

// A message that is kept: its byte 0, the words of its answer and its own.
#[derive(Clone, Copy)]
pub struct Kept {
    pub byte0: u32,
    pub words: u32,
    pub request: u32,
}

// The stored answer of a tag sent again.
fn again(stored: &[u32], output: &mut [u8], tags: TagRecord, tag: u32) -> Done
    requires { (words_at tags tag ≤ limit)
        × (limit * place_of tag + words_at tags tag ≤ length stored.now)
        × (4 * words_at tags tag ≤ length output.old) }
    ensures { SendsAgain stored.now output.old tags tag result output.new }
{
    let n = record::words_at(tags, tag);
    let at = TagRecord::WORDS * record::place(tag);
    let end = at + n;
    run::put_words(output, 0, &stored[at..end]);
    Done {
        sent: 4 * n,
        kept: None,
    }
}

// A message's bytes to the front of a place of the kept requests, if it is kept. Every other byte stays.
fn keep_request(kept: &mut [u8], place: usize, datagram: &[u8], keep: bool)
    requires { (place < places)
        × (length datagram.now % 4 ≡ 0)
        × (length datagram.now ≤ limit_bytes)
        × (places * limit_bytes ≤ length kept.old) }
    ensures { kept.new ≡ kept_by keep kept.old place datagram.now }
{
    if keep {
        let at = TagRecord::BYTES * place;
        run::copy_bytes(&mut kept[at..], datagram, datagram.len() / 4);
    }
}

// A message that is carried out: a new one, which is kept with its answer at its place, or a discovery.
fn act(
    memory: &mut [u32],
    stored: &mut [u32],
    kept: &mut [u8],
    output: &mut [u8],
    sound: Sound,
    datagram: &[u8],
    keep: bool,
) -> Done
    requires { (read datagram.now ≡ Means (request_of datagram.now))
        × (places * limit ≤ length stored.old)
        × (limit_bytes ≤ length output.old)
        × (places * limit_bytes ≤ length kept.old) }
    ensures { gave (Ok result.sent) (lent memory.new stored.new kept.new (record_with sound.tags result.kept)) output.new
        ≡ after_by (Ok (cond keep New Discovery))
        (lent memory.old stored.old kept.old sound.tags) output.old
        datagram.now }
{
    let byte0 = u32::from(datagram[0]);
    let mark = sound.mark();
    let place = record::place(header::tag(byte0));
    keep_request(kept, place, datagram, keep);
    let at = TagRecord::WORDS * place;
    let end = at + TagRecord::WORDS;
    let n = carry::carry(
        memory,
        &mut stored[at..end],
        output,
        datagram,
        byte0,
        mark,
        keep,
    );
    let message = Kept {
        byte0,
        words: n as u32,
        request: (datagram.len() / 4) as u32,
    };
    Done {
        sent: 4 * n,
        kept: keep.then_some(message),
    }
}

// The controller's call but for the record, for any buffers, any record and any bytes. The record that `follow` makes
// of what it gives is the record after it; a refusal leaves the record.
pub fn dispatch(
    memory: &mut [u32],
    stored: &mut [u32],
    kept: &mut [u8],
    output: &mut [u8],
    tags: TagRecord,
    datagram: &[u8],
) -> Result<Done, Refusal>
    ensures leaves { gave (sent_by result) (lent memory.new stored.new kept.new (follows tags result)) output.new
        ≡ after
        (lent memory.old stored.old kept.old tags) output.old
        datagram.now }
    ensures refused { IfErr result (λ r. r.number ≢ 0) }
{
    let verdict = verdict::verdict_of(
        memory.len(),
        stored.len(),
        kept,
        output.len(),
        tags,
        datagram,
    )?;
    Ok(match verdict {
        Verdict::Repeat(tag) => again(stored, output, tags, tag),
        // One call for both, so that what it does stands once in the library.
        _ => act(
            memory,
            stored,
            kept,
            output,
            Sound::of(tags),
            datagram,
            matches!(verdict, Verdict::New),
        ),
    })
}

// The record after a call that is not refused.
pub fn follow(tags: TagRecord, done: Done) -> TagRecord
    ensures { result ≡ record_with tags done.kept }
{
    match done.kept {
        Some(message) => record::record_after(tags, message.byte0, message.words, message.request),
        None => tags,
    }
}

// The controller's call, for any buffers, any record and any bytes: the bytes sent, which stand at the front of the
// output. The record is looked at where it lies and follows at the end, so that its ten numbers are not carried through
// the call.
pub fn serve(
    memory: &mut [u32],
    stored: &mut [u32],
    kept: &mut [u8],
    output: &mut [u8],
    tags: &mut TagRecord,
    datagram: &[u8],
) -> Result<usize, Refusal>
    ensures leaves { gave result (lent memory.new stored.new kept.new tags.new) output.new
        ≡ after
        (lent memory.old stored.old kept.old tags.old) output.old
        datagram.now }
    ensures refused { IfErr result (λ r. r.number ≢ 0) }
{
    let done = dispatch(memory, stored, kept, output, *tags, datagram)?;
    *tags = follow(*tags, done);
    Ok(done.sent)
}
