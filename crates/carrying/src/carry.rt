// Carrying out a message: each command by its kind, and the loop over the commands.
ghost use Rattle.std.specs.Prelude.{◌≡◌, ◌≤◌};
ghost use Rattle.header.specs.declared.Kind.TheVariants.{Nop, Write, Read};
ghost use Rattle.message.specs.Request.{Means};
ghost use Rattle.message.specs.Walk.{read, request_of};
ghost use Rattle.header.specs.Limits.{limit};
ghost use Rattle.carrying.specs.Putting.{Room};
ghost use Rattle.carrying.specs.Carry.{goes_to, Here, CarriesHere, CarriesNop, Carries};

use crate::putting::Answer;
use answer::Status;
use header::Kind;
use memory::moves;
use message::address;

// What is the same for every command of a message: its bytes, its byte 0, the kind it names, the answer's byte 0, and
// word 1 of the advertisement.
#[derive(Clone, Copy)]
pub struct Task<'a> {
    pub datagram: &'a [u8],
    pub byte0: u32,
    pub kind: Kind,
    pub answer: u32,
    pub mark: u32,
}

// Where the next header stands, behind this command; none if the message ends here.
fn behind(last: bool, next: usize) -> Option<usize>
    ensures { result ≡ goes_to last next }
{
    if last { None } else { Some(next) }
}

// A NOP: it is answered from the advertisement. Like every command it says where the next header stands.
fn carry_nop(answer: &mut Answer<'_>, task: Task<'_>, at: usize) -> Option<usize>
    requires { Here task at answer.old
        × (task.kind ≡ Nop) }
    ensures { CarriesNop task.entry at answer.old result answer.new }
{
    let h = word::word_at(task.datagram, at);
    let count = header::count(h);
    answer.put_asked(task.answer, h);
    answer.put_advert(task.mark, count);
    behind(header::last(h), at + 1 + count)
}

// A write: its answer first, then its words.
fn carry_write(
    memory: &mut [u32],
    answer: &mut Answer<'_>,
    task: Task<'_>,
    at: usize,
) -> Option<usize>
    requires { Here task at answer.old
        × (task.kind ≡ Write) }
    ensures { CarriesHere task.entry at memory.old answer.old result memory.new answer.new }
{
    let h = word::word_at(task.datagram, at);
    let count = header::count(h);
    let address = address::address_at(task.byte0, task.datagram, at);
    if moves::outside(memory.len(), address, count) {
        answer.put_head(task.answer, Status::Error, 0, true);
        return None;
    }
    let base = (address / 4) as usize;
    let from = at + 1 + header::address_words(task.byte0);
    let last = header::last(h);
    answer.put_head(task.answer, Status::Ok, 0, last);
    let next = moves::store_all(memory, base, task.datagram, from, count, header::byte1(h));
    behind(last, next)
}

// A read: its answer's header, then the words of memory.
fn carry_read(memory: &[u32], answer: &mut Answer<'_>, task: Task<'_>, at: usize) -> Option<usize>
    requires { Here task at answer.old
        × (task.kind ≡ Read) }
    ensures { CarriesHere task.entry at memory.now answer.old result memory.now answer.new }
{
    let h = word::word_at(task.datagram, at);
    let count = header::count(h);
    let address = address::address_at(task.byte0, task.datagram, at);
    if moves::outside(memory.len(), address, count) {
        answer.put_head(task.answer, Status::Error, 0, true);
        return None;
    }
    let base = (address / 4) as usize;
    let next = at + 1 + header::address_words(task.byte0);
    answer.put_asked(task.answer, h);
    answer.put_run(&memory[base..base + count]);
    behind(header::last(h), next)
}

// One command, by its kind.
fn carry_one(
    memory: &mut [u32],
    answer: &mut Answer<'_>,
    task: Task<'_>,
    at: usize,
) -> Option<usize>
    requires { Here task at answer.old }
    ensures { CarriesHere task.entry at memory.old answer.old result memory.new answer.new }
{
    match task.kind {
        Kind::Nop => carry_nop(answer, task, at),
        Kind::Write => carry_write(memory, answer, task, at),
        Kind::Read => carry_read(memory, answer, task, at),
        // No request is a response: its count is never allowed.
        Kind::Response => None,
    }
}

// An accepted message, whose byte 0 is this: each command in order, up to the last or the first that fails. `mark` is
// word 1 of the advertisement. The answer's words are counted, and stand at the front of the output and, if `keep`, of
// the stored words.
pub fn carry(
    memory: &mut [u32],
    stored: &mut [u32],
    output: &mut [u8],
    datagram: &[u8],
    byte0: u32,
    mark: u32,
    keep: bool,
) -> usize
    requires { (read datagram.now ≡ Means (request_of datagram.now))
        × (byte0 ≡ (request_of datagram.now).byte0)
        × Room stored.old output.old }
    ensures carries { Carries (request_of datagram.now) mark keep
        memory.old stored.old output.old result
        memory.new stored.new output.new }
    ensures within { result ≤ limit }
{
    let task = Task {
        datagram,
        byte0,
        kind: header::kind_of(byte0),
        answer: answer::answer_byte(byte0),
        mark,
    };
    let mut answer = Answer {
        stored,
        output,
        keep,
        words: 0,
    };
    let mut at = 0;
    while let Some(next) = carry_one(memory, &mut answer, task, at) {
        at = next;
    }
    answer.words
}
