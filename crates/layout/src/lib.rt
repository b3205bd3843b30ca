// The training table: where it stands, its rows, and its four messages, each written into a lent output.
//
// 24 rows of 8 words, the first of which is the row's number, then the complete word, which is called the mark. The
// other seven words of each row are the caller's: 168 of them, those of row 1 first. They are lent as an array of that
// length, and the row numbers are added here: so no caller can lend too few or number a row wrongly.
#![tactic(auto)]

ghost use Rattle.std.specs.Prelude.{◌≡◌, ◌<◌};
ghost use Rattle.word.specs.Words.{Words};
ghost use Rattle.header.specs.Refusal.{refusal, as_result};
ghost use Rattle.layout.specs.Layout.{set_up_fault, row_of};

use header::refusal::{Refusal, check};

pub mod writing;

// Which message is to be sent.
#[derive(Clone, Copy)]
pub enum Stage {
    // 0 to the mark
    Clear,
    // 24 writes, a row each
    Rows,
    // 24 reads, a row each
    Back,
    // 24 to the mark
    Mark,
}

// The rows of a table.
pub const ROWS: usize = 24;

// The words of the table: its rows, and the mark.
pub const TABLE: u64 = 193;

// 2^32, where the last table may end.
const TOP: u64 = 4294967296;

// Refuses a set-up, a start in bytes and a room in words: 40.
#[tactic(auto, unfolding(crate::specs::Layout::set_up_fault, crate::specs::Layout::set_up_ok))]
pub fn set_up(start: u64, room: u64) -> Result<(), Refusal>
    ensures { result ≡ as_result (refusal (set_up_fault start room)) }
{
    let ends_well = room <= TOP / 4 && start <= TOP - 4 * room;
    check(
        TABLE <= room && start % 4 == 0 && ends_well,
        Refusal::SET_UP,
        0,
    )
}

// Row i, counted from 0: its number, then its seven words.
pub fn row_of(rows: &[u32; 168], i: usize) -> [u32; 8]
    requires { i < 24 }
    ensures value { result ≡ row_of rows.now i }
    ensures words { Words result }
{
    let mut row = [i as u32 + 1; 8];
    row[1..].copy_from_slice(&rows[7 * i..7 * i + 7]);
    row
}
