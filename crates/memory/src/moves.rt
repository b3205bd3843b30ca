// Memory: when a command fails, and a write's words.
ghost use Rattle.std.specs.Prelude.{◌≡◌, ◌+◌, ◌*◌, ◌<◌, ◌≤◌, length, take, drop};
ghost use Rattle.word.specs.Words.{words_of, longest};
ghost use Rattle.header.specs.Header.{first_field, last_field};
ghost use Rattle.memory.specs.Moves.{outside, Store, stores, after_move, after_moves};

// Whether a read or write fails: its address is not a multiple of 4, or a word of its range lies past the end of
// memory, which has `size` words. Nothing wraps: the sum is made in 64 bits, of word numbers.
pub fn outside(size: usize, address: u64, count: usize) -> bool
    requires { count < 4096 }
    ensures { result ≡ outside size address count }
{
    address % 4 != 0 || (size as u64) < address / 4 + count as u64
}

// One word, under byte enables.
pub fn store(memory: &mut [u32], at: usize, w: u32, enables: u32)
    requires { at < length memory.old }
    ensures { memory.new ≡ after_move memory.old (Store at w enables) }
{
    memory[at] = word::merge(memory[at], w, enables);
}

// A write's words, from word `at` on: a first and a last word are merged, what lies between is copied. Gives where the
// next header stands, which for one word does not wait for the count.
pub fn store_all(
    memory: &mut [u32],
    at: usize,
    datagram: &[u8],
    from: usize,
    count: usize,
    byte1: u32,
) -> usize
    requires { (1 ≤ count)
        × (count ≤ longest)
        × (at + count ≤ length memory.old)
        × (4 * (from + count) ≤ length datagram.now) }
    ensures { (result ≡ from + count) × (memory.new
        ≡ after_moves memory.old
        (stores at (first_field byte1) (last_field byte1)
        (take count (drop from (words_of datagram.now))))) }
{
    store(
        memory,
        at,
        word::word_at(datagram, from),
        header::first_field(byte1),
    );
    if count == 1 {
        return from + 1;
    }
    let between = count - 2;
    word::run::get_words(memory, at + 1, datagram, from + 1, between);
    store(
        memory,
        at + 1 + between,
        word::word_at(datagram, from + 1 + between),
        header::last_field(byte1),
    );
    from + count
}
