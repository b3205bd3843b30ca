// Runs of words: into bytes, out of bytes, from words to words and from bytes to bytes; and whether two are the same.
//
// Each longer copy goes by way of a local array, which the compiler drops: a loop into it and a loop out of it become
// one memmove, where a loop from slice to slice stays a loop with a test for overlap.
ghost use Rattle.std.specs.Prelude.{◌≡◌, ◌&&◌, ◌+◌, ◌*◌, ◌≤◌, eqb, length, take, drop};
ghost use Rattle.word.specs.Words.{words_of, put, put_words, longest, same};

// The most words that one call copies.
pub const LONGEST: usize = 4096;

// The first n words of src, to dst from index `to` on.
fn paste(dst: &mut [u32], to: usize, src: &[u32], n: usize)
    requires n_in_bounds { n ≤ length src.now }
    requires n_in_bounds_2 { to + n ≤ length dst.old }
    ensures { dst.new ≡ put dst.old to (take n src.now) }
{
    let mut i = 0;
    while i < n {
        dst[to + i] = src[i];
        i += 1;
    }
}

// The first n words of src, to the bytes out from word `to` on.
fn spread(out: &mut [u8], to: usize, src: &[u32], n: usize)
    requires n_in_bounds { n ≤ length src.now }
    requires n_in_bounds_2 { 4 * (to + n) ≤ length out.old }
    ensures { out.new ≡ put_words out.old to (take n src.now) }
{
    let mut i = 0;
    while i < n {
        crate::put_word(out, to + i, src[i]);
        i += 1;
    }
}

// n words of the bytes b from word `from` on, to the front of dst.
fn gather(dst: &mut [u32], b: &[u8], from: usize, n: usize)
    requires n_in_bounds { 4 * (from + n) ≤ length b.now }
    requires n_in_bounds_2 { n ≤ length dst.old }
    ensures { dst.new ≡ put dst.old 0 (take n (drop from (words_of b.now))) }
{
    let mut i = 0;
    while i < n {
        dst[i] = crate::word_at(b, from + i);
        i += 1;
    }
}

// All of src, to the bytes out from word `to` on. Every other byte stays.
pub fn put_words(out: &mut [u8], to: usize, src: &[u32])
    requires src_len_bound { length src.now ≤ longest }
    requires src_in_bounds { 4 * (to + length src.now) ≤ length out.old }
    ensures { out.new ≡ put_words out.old to src.now }
{
    let n = src.len();
    let mut stage = [0u32; LONGEST];
    paste(&mut stage, 0, src, n);
    spread(out, to, &stage, n);
}

// n words of the bytes b from word `from` on, to dst from index `to` on. Every other word of dst stays.
pub fn get_words(dst: &mut [u32], to: usize, b: &[u8], from: usize, n: usize)
    requires { (n ≤ longest)
        × (4 * (from + n) ≤ length b.now)
        × (to + n ≤ length dst.old) }
    ensures { dst.new ≡ put dst.old to (take n (drop from (words_of b.now))) }
{
    let mut stage = [0u32; LONGEST];
    gather(&mut stage, b, from, n);
    paste(dst, to, &stage, n);
}

// All of src, to dst from index `to` on. Every other word of dst stays.
pub fn copy_words(dst: &mut [u32], to: usize, src: &[u32])
    requires src_len_bound { length src.now ≤ longest }
    requires src_in_bounds { to + length src.now ≤ length dst.old }
    ensures { dst.new ≡ put dst.old to src.now }
{
    let n = src.len();
    let mut stage = [0u32; LONGEST];
    paste(&mut stage, 0, src, n);
    paste(dst, to, &stage, n);
}

// The first two words of the bytes b, to the front of the bytes out.
fn copy_two(out: &mut [u8], b: &[u8])
    requires in_bounds { 8 ≤ length b.now }
    requires in_bounds_2 { 8 ≤ length out.old }
    ensures { out.new ≡ put out.old 0 (take 8 b.now) }
{
    let two = [crate::word_at(b, 0), crate::word_at(b, 1)];
    spread(out, 0, &two, 2);
}

// The first three.
fn copy_three(out: &mut [u8], b: &[u8])
    requires in_bounds { 12 ≤ length b.now }
    requires in_bounds_2 { 12 ≤ length out.old }
    ensures { out.new ≡ put out.old 0 (take 12 b.now) }
{
    let three = [
        crate::word_at(b, 0),
        crate::word_at(b, 1),
        crate::word_at(b, 2),
    ];
    spread(out, 0, &three, 3);
}

// The first n words of the bytes b, to the front of the bytes out. Every other byte of out stays. Two and three, what
// most requests have, go without a call of memmove.
pub fn copy_bytes(out: &mut [u8], b: &[u8], n: usize)
    requires { (n ≤ longest)
        × (4 * n ≤ length b.now)
        × (4 * n ≤ length out.old) }
    ensures { out.new ≡ put out.old 0 (take (4 * n) b.now) }
{
    if n == 2 {
        return copy_two(out, b);
    }
    if n == 3 {
        return copy_three(out, b);
    }
    let mut stage = [0u32; LONGEST];
    gather(&mut stage, b, 0, n);
    spread(out, 0, &stage, n);
}

// Whether two words are the same, and those before them were.
fn alike(before: bool, x: u32, y: u32) -> bool
    ensures { result ≡ (before && eqb x y) }
{
    if x == y {
        return before;
    }
    false
}

// Whether the first n words of two runs of bytes are the same. The loop goes on past a difference, so that the compiler
// compares several words at once.
pub fn same_words(a: &[u8], b: &[u8], n: usize) -> bool
    requires n_in_bounds { 4 * n ≤ length a.now }
    requires n_in_bounds_2 { 4 * n ≤ length b.now }
    ensures { result ≡ same (take (4 * n) a.now) (take (4 * n) b.now) }
{
    let mut so = true;
    let mut i = 0;
    while i < n {
        so = alike(so, crate::word_at(a, i), crate::word_at(b, i));
        i += 1;
    }
    so
}
