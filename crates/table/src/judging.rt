// What an accepted answer makes of an attempt.
ghost use Rattle.std.specs.Prelude.{◌≡◌, ◌<◌, ℕ};
ghost use Rattle.table.specs.Attempt.{is_ok, read_row, marking, next_of, next_by};
ghost use Rattle.table.specs.Attempt.{told_of};
ghost use Rattle.table.specs.Comparing.{Compares, Goes};

use crate::attempt::Next;
use answer::Status;
use initiator::outcome;
use layout::Stage;

// Whether command k ended OK.
fn ok_at(message: &[u8], answer: &[u8], k: usize) -> bool
    ensures { result ≡ is_ok ((told_of message.now answer.now).ending k) }
{
    matches!(outcome::ended(message, answer, k), Some(Status::Ok))
}

// Whether a part of an answer is these words. By a `for`: of `all` it would be left to prove that its run is `same`.
fn same_words(part: &[u8], row: &[u32]) -> bool
    ensures { Compares part.now row.now result }
{
    if part.len() / 4 != row.len() {
        return false;
    }
    for j in 0..row.len() {
        if word::word_at(part, j) != row[j] {
            return false;
        }
    }
    true
}

// Whether row i, counted from 0, came back as sent.
fn came_back(message: &[u8], answer: &[u8], rows: &[u32; 168], i: usize) -> bool
    requires { i < 24 }
    ensures { result ≡ read_row rows.now (told_of message.now answer.now) i }
{
    ok_at(message, answer, i)
        && same_words(
            outcome::read_data(message, answer, i),
            &layout::row_of(rows, i),
        )
}

// The mark written, or 25.
#[tactic(auto, unfolding(crate::specs::Attempt::marking))]
fn mark_told(message: &[u8], answer: &[u8], on: Next) -> Next
    ensures { result ≡ marking (told_of message.now answer.now) on }
{
    if ok_at(message, answer, 0) {
        return on;
    }
    Next::Ended(25)
}

// Goes on where every row is well; else the first that is not ends it. By a `for`: the proof
// of `find` wants a `well` that may be asked of any number, and here it may be asked of rows alone.
fn through<F: Fn(usize) -> bool>(on: Next, well: F) -> Next
    requires { (i : ℕ) → i < 24 → F.pre well i }
    ensures { Goes (F.post well) on result }
{
    for i in 0..layout::ROWS {
        if !well(i) {
            return Next::Ended(i as u8 + 1);
        }
    }
    on
}

// What follows a stage whose message got this answer: the rows are written, and come back as sent.
#[tactic(auto, unfolding(crate::specs::Attempt::next_of, crate::specs::Attempt::wrote_row))]
fn next_of(message: &[u8], answer: &[u8], rows: &[u32; 168], stage: Stage) -> Next
    ensures { result ≡ next_of rows.now stage (told_of message.now answer.now) }
{
    match stage {
        Stage::Clear => mark_told(message, answer, Next::Send(Stage::Rows)),
        Stage::Rows => through(Next::Send(Stage::Back), |i| ok_at(message, answer, i)),
        Stage::Back => through(Next::Send(Stage::Mark), |i| {
            came_back(message, answer, rows, i)
        }),
        Stage::Mark => mark_told(message, answer, Next::Done),
    }
}

// What follows an answer; an attempt that is done or has ended stays so.
pub(crate) fn next_by(message: &[u8], answer: &[u8], rows: &[u32; 168], next: Next) -> Next
    ensures { result ≡ next_by rows.now next (told_of message.now answer.now) }
{
    match next {
        Next::Send(stage) => next_of(message, answer, rows, stage),
        Next::Done | Next::Ended(_) => next,
    }
}
