// What an accepted answer tells: how many commands were answered, how each ended, where the data of a read stand.
//
// No sender is looked at, so these serve after the answer was taken too; of an answer that is refused they tell
// nothing.
ghost use Rattle.std.specs.Prelude.{◌≡◌, ◌+◌, ◌≤◌, length};
ghost use Rattle.message.specs.Walk.{read};
ghost use Rattle.initiator.specs.Outcome.{judged_by, count_in};
ghost use Rattle.loader.specs.Outcome.{status_number, data_part};

use answer::Status;
use initiator::outcome;

// The number that is no status: of a command that was not answered.
pub const ABSENT: u32 = 3;

// A part of the answer's bytes.
#[repr(C)]
#[derive(Drop)]
pub struct Part {
    pub start: usize,
    pub length: usize,
}

// How many commands were answered; 0 where the answer is refused.
pub fn charkhavo_count(request: &[u8], answer: &[u8]) -> usize
    ensures { result ≡ count_in (judged_by (read request.now) answer.now) }
{
    outcome::answered(request, answer)
}

// How command k ended, counted from 0: 0 OK, 1 Timeout, 2 Error, 3 not answered or the answer refused.
#[tactic(auto, unfolding(crate::specs::Outcome::status_number))]
pub fn charkhavo_status(request: &[u8], answer: &[u8], k: usize) -> u32
    ensures { result ≡ status_number request.now answer.now k }
{
    outcome::ended(request, answer, k).map_or(ABSENT, u32::from)
}

// Where command k's read data stand in the answer; of length 0 at 0 for anything but an answered OK read.
#[tactic(auto, unfolding(crate::specs::Outcome::data_part))]
pub fn charkhavo_read_data(request: &[u8], answer: &[u8], k: usize) -> Part
    ensures value { result ≡ data_part request.now answer.now k }
    ensures inside { result.start + result.length ≤ length answer.now }
{
    let span = outcome::read_span(request, answer, k);
    Part {
        start: span.start,
        length: span.end - span.start,
    }
}
