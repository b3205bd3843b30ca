// The sender: up to four messages wait at it, which stay lent to it and may be sent any number of times, until an
// accepted answer ends them, in order of tag. Every call takes any record, any message, any answer, and refuses by
// number.
ghost use Rattle.std.specs.Prelude.{◌≡◌, ◌<◌, MatchResult, Ok, Err};
ghost use Rattle.header.specs.Limits.{tag_count};
ghost use Rattle.initiator.specs.Asking.{asking_of};
ghost use Rattle.initiator.specs.Sender.{idle, fresh_sender, sending, moved_from, taken_from, sender_from, progress_at};
ghost use Rattle.initiator.specs.Sender.{discovered_by, offer_by, sent_by, take_by};

use crate::places::Checked;
use crate::{asking, outcome};
use answer::Status;
use header::refusal::Refusal;
use header::{Kind, limits};

// The next tag, that of the oldest message which waits, or where none waits the one to offer; how many wait; and which
// of the three behind the oldest are answered. What is said of a message that does not wait is not looked at. It is C's
// own record, so its marks are three fields.
#[repr(C)]
#[derive(Clone, Copy)]
pub struct Sender {
    pub next: u8,
    pub waiting: u8,
    pub second: bool,
    pub third: bool,
    pub fourth: bool,
}

// What an accepted answer came to: the sender then, and how many messages ended.
#[derive(Clone, Copy)]
pub struct Progress {
    pub sender: Sender,
    pub ended: u8,
}

// What an offer or a discovery came to, as C has it: its refusal (number 0: none), and the sender then.
#[repr(C)]
#[derive(Drop)]
pub struct Moved {
    pub refusal: Refusal,
    pub sender: Sender,
}

// What taking an answer came to, as C has it: the same, and how many messages ended.
#[repr(C)]
#[derive(Clone, Copy)]
pub struct Taken {
    pub refusal: Refusal,
    pub sender: Sender,
    pub ended: u8,
}

impl Moved {
    // What a call gave: refused, with the sender that is kept.
    pub fn of(given: Result<Sender, Refusal>, kept: Sender) -> Self
        ensures { result ≡ moved_from kept given }
    {
        match given {
            Ok(sender) => Moved {
                refusal: Refusal::of(Refusal::NONE),
                sender,
            },
            Err(refusal) => Moved {
                refusal,
                sender: kept,
            },
        }
    }
}

impl Taken {
    // What a call gave: refused, with the sender that is kept.
    pub fn of(given: Result<Progress, Refusal>, kept: Sender) -> Self
        ensures { result ≡ taken_from kept given }
    {
        match given {
            Ok(progress) => Taken {
                refusal: Refusal::of(Refusal::NONE),
                sender: progress.sender,
                ended: progress.ended,
            },
            Err(refusal) => Taken {
                refusal,
                sender: kept,
                ended: 0,
            },
        }
    }
}

// A sender at which none waits.
fn idle(next: u8) -> Sender
    ensures { result ≡ idle next }
{
    Sender {
        next,
        waiting: 0,
        second: false,
        third: false,
        fourth: false,
    }
}

// The sender that advertisement word 1 makes: a stored tag with bit 4 set, or 0 for none; or 38.
fn sender_from(w: u32) -> Result<Sender, Refusal>
    ensures { result ≡ sender_from w }
{
    match w {
        0 => Ok(Sender::fresh()),
        16..=31 => Ok(idle(header::next_tag(header::tag(w)) as u8)),
        _ => Err(Refusal::of(Refusal::DISCOVERY)),
    }
}

impl Sender {
    // The sender of a fresh pair.
    pub fn fresh() -> Self
        ensures { result ≡ fresh_sender }
    {
        idle(0)
    }

    // A sender that every call refuses by 37.
    pub fn stopped() -> Self
        ensures { result ≡ idle tag_count }
    {
        idle(limits::TAGS as u8)
    }

    // The sender that the answer to the fixed discovery makes: refused by 32 to 35, then 38.
    pub fn discovered(answer: &[u8]) -> Result<Self, Refusal>
        ensures { result ≡ discovered_by answer.now }
    {
        let byte0 = header::byte0_from(0, Kind::Nop, false, true);
        answer::check_head(byte0, answer)?;
        let seen = answer::look_at(byte0, 2, true, answer, 0)?;
        match seen.status {
            Status::Ok => sender_from(word::word_at(answer, 2)),
            Status::Timeout | Status::Error => Err(Refusal::of(Refusal::DISCOVERY)),
        }
    }

    // Offers a message, which then waits: 37, 36, 31.
    pub fn offer(self, message: &[u8]) -> Result<Self, Refusal>
        ensures { result ≡ offer_by self message.now }
    {
        let checked = self.checked()?;
        if !checked.has_room() {
            return Err(Refusal::of(Refusal::OFFERING));
        }
        asking::ask_as(checked.new_tag() as u32, message)?;
        Ok(checked.with_one())
    }

    // The bytes to send, the lent message's own: 37, 30, 31.
    pub fn send<'a>(self, message: &'a [u8]) -> Result<&'a [u8], Refusal>
        ensures { MatchResult result (λ part. Ok part.now ≡ sent_by self message.now)
            (λ r. Err r ≡ sent_by self message.now) }
    {
        self.checked()?.sending(message)?;
        Ok(message)
    }

    // Takes an answer to the lent message, which waits: 37, 30, 31, 32 to 35. Accepted, it ends the oldest message and
    // all answered ones right behind it, and the next tag is as many more, modulo 16; or it marks a younger one.
    pub fn take(self, message: &[u8], answer: &[u8]) -> Result<Progress, Refusal>
        ensures { result ≡ take_by self message.now answer.now }
    {
        let checked = self.checked()?;
        let byte0 = checked.sending(message)?;
        outcome::told_by(message, answer, byte0, 0)?;
        Ok(checked.accepted_at(checked.place_in(header::tag(byte0) as u8)))
    }
}

impl Checked {
    // Byte 0 of a message that may be sent, or an answer to it taken: 30; 31, also for any other tag than that of one
    // that waits and is not answered.
    fn sending(self, message: &[u8]) -> Result<u32, Refusal>
        ensures { result ≡ asking_of (sending self.sender message.now) }
    {
        if self.sender.waiting == 0 {
            return Err(Refusal::of(Refusal::NONE_WAITS));
        }
        let byte0 = asking::ask(message)?;
        if !self.waits_for(header::tag(byte0) as u8) {
            return Err(Refusal::of(Refusal::REQUEST));
        }
        Ok(byte0)
    }

    // What an accepted answer to the message of this place does: the oldest ends, and the answered ones right behind
    // it; a younger one waits on.
    fn accepted_at(self, place: u8) -> Progress
        requires { 0 < self.sender.waiting }
        ensures { result ≡ progress_at self.sender place }
    {
        if place != 0 {
            return Progress {
                sender: self.marked(place),
                ended: 0,
            };
        }
        let ended = self.ending();
        Progress {
            sender: self.without(ended),
            ended,
        }
    }
}
