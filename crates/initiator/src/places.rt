// The messages that wait at a sender, by their places: 0 for the oldest, and the tags one after another. Which of them
// are answered, and the record once one more waits, one more is answered, or the oldest end.
ghost use Rattle.std.specs.Prelude.{◌≡◌, ◌||◌, ◌<◌, ◌≤◌, eqb, MatchResult, true, false};
ghost use Rattle.header.specs.Limits.{tag_count};
ghost use Rattle.header.specs.Refusal.{refusal};
ghost use Rattle.initiator.specs.Places.{most, sender_ok, has_room, place_in, mark_at, answered_at, waits_for};
ghost use Rattle.initiator.specs.Places.{new_tag, with_one, marked, ending_of, without};

use crate::sender::Sender;
use header::limits;
use header::refusal::Refusal;

// The most that may wait.
pub const MOST: u8 = 4;

const TAGS: u8 = limits::TAGS as u8;

// A sender whose record is one: not 37.
#[derive(Clone, Copy)]
pub struct Checked {
    pub sender: Sender,
    ghost next_lt_tag_count: { sender.next < tag_count },
    ghost waiting_le_most: { sender.waiting ≤ most },
}

impl Sender {
    // The sender, if its record is one: 37.
    pub fn checked(self) -> Result<Checked, Refusal>
        ensures { MatchResult result (λ c. (c.sender ≡ self) × (sender_ok self ≡ true))
            (λ r. (r ≡ refusal 37) × (sender_ok self ≡ false)) }
    {
        if TAGS <= self.next || MOST < self.waiting {
            return Err(Refusal::of(Refusal::SENDER));
        }
        Ok(Checked { sender: self })
    }

    // The mark of a place.
    fn mark_at(self, place: u8) -> bool
        ensures { result ≡ mark_at self place }
    {
        match place {
            1 => self.second,
            2 => self.third,
            3 => self.fourth,
            _ => false,
        }
    }

    // Whether a message of this place waits and is answered.
    fn answered_at(self, place: u8) -> bool
        ensures { result ≡ answered_at self place }
    {
        place < self.waiting && self.mark_at(place)
    }
}

impl Checked {
    // Whether one more may wait: not 36.
    pub(crate) fn has_room(self) -> bool
        ensures { result ≡ has_room self.sender }
    {
        self.sender.waiting < MOST
    }

    // The place of a tag.
    pub(crate) fn place_in(self, tag: u8) -> u8
        requires { tag < tag_count }
        ensures { result ≡ place_in self.sender tag }
    {
        (tag + TAGS - self.sender.next) % TAGS
    }

    // The tag after the newest.
    pub(crate) fn new_tag(self) -> u8
        ensures { result ≡ new_tag self.sender }
    {
        (self.sender.next + self.sender.waiting) % TAGS
    }

    // Whether a message of this tag waits and is not answered.
    pub(crate) fn waits_for(self, tag: u8) -> bool
        requires { tag < tag_count }
        ensures { result ≡ waits_for self.sender tag }
    {
        let place = self.place_in(tag);
        place < self.sender.waiting && !self.sender.answered_at(place)
    }

    // One more waits, and is not answered.
    pub(crate) fn with_one(self) -> Sender
        ensures { result ≡ with_one self.sender }
    {
        let sender = self.sender;
        Sender {
            next: sender.next,
            waiting: sender.waiting + 1,
            second: sender.answered_at(1),
            third: sender.answered_at(2),
            fourth: sender.answered_at(3),
        }
    }

    // Whether a place is this one, or one whose message is answered.
    fn this_or_answered(self, place: u8, this: u8) -> bool
        ensures { result ≡ (eqb place this || answered_at self.sender place) }
    {
        place == this || self.sender.answered_at(place)
    }

    // The message of this place is answered, and waits on.
    pub(crate) fn marked(self, place: u8) -> Sender
        ensures { result ≡ marked self.sender place }
    {
        Sender {
            next: self.sender.next,
            waiting: self.sender.waiting,
            second: self.this_or_answered(1, place),
            third: self.this_or_answered(2, place),
            fourth: self.this_or_answered(3, place),
        }
    }

    // How many end with the oldest.
    pub(crate) fn ending(self) -> u8
        requires { 0 < self.sender.waiting }
        ensures value { result ≡ ending_of self.sender }
        ensures some { (result ≤ self.sender.waiting) × (result ≤ most) }
    {
        if !self.sender.answered_at(1) {
            return 1;
        }
        if !self.sender.answered_at(2) {
            return 2;
        }
        if !self.sender.answered_at(3) {
            return 3;
        }
        4
    }

    // So many of the oldest end, and the next tag is as many more.
    pub(crate) fn without(self, n: u8) -> Sender
        requires { n ≤ self.sender.waiting }
        ensures { result ≡ without self.sender n }
    {
        let sender = self.sender;
        Sender {
            next: (sender.next + n) % TAGS,
            waiting: sender.waiting - n,
            second: sender.answered_at(1 + n),
            third: sender.answered_at(2 + n),
            fourth: sender.answered_at(3 + n),
        }
    }
}
