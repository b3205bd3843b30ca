// The rows of a life, and the table as it stands in memory.
use std::{array, io};

// Word i, counted from 0, of all that a life has for its rows.
fn word_of(life: u32, i: usize) -> u32 {
    65536 * (life % 256) + (256 * (i / 7 % 24 + 1) + i % 7 + 1) as u32
}

// The seven words of each of its 24 rows.
pub(crate) fn words_of(life: u32) -> [u32; 168] {
    array::from_fn(|i| word_of(life, i))
}

// All rows of the table, which stands behind 16 words.
pub(crate) fn say(rt: &impl Print, memory: &[u32; 210]) -> io::Result<()> {
    for row in memory[16..208].chunks(8) {
        println!(rt; "   {}", show::Words(row))?;
    }
    Ok(())
}
