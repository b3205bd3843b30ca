// The address of a command, read from a request's words and put into them.
ghost use Rattle.std.specs.Prelude.{◌≡◌, ◌+◌, ◌*◌, ◌<◌, ◌≤◌, length, drop};
ghost use Rattle.word.specs.Words.{words_of, put_words};
ghost use Rattle.header.specs.Header.{address_words};
ghost use Rattle.message.specs.Address.{address_from, address_in, address_top};

// The address of the command whose header stands at word `at`: one word, or two with the low one first; 0 where its
// kind has none.
#[tactic(auto, using(crate::proofs::Laws::Addresses::by_words))]
pub fn address_at(byte0: u32, datagram: &[u8], at: usize) -> u64
    requires { 4 * (at + 1 + address_words byte0) ≤ length datagram.now }
    ensures { result ≡ address_from (address_words byte0) (drop (at + 1) (words_of datagram.now)) }
{
    match header::address_words(byte0) {
        0 => 0,
        1 => u64::from(word::word_at(datagram, at + 1)),
        _ => {
            let low = u64::from(word::word_at(datagram, at + 1));
            low + 4294967296 * u64::from(word::word_at(datagram, at + 2))
        },
    }
}

// The words of an address, into the output from word `at` on.
#[tactic(auto, using(crate::proofs::Laws::Addresses::by_words))]
pub fn put_address(out: &mut [u8], at: usize, n: usize, address: u64)
    requires { (n ≤ 2)
        × (address < address_top n)
        × (4 * (at + n) ≤ length out.old) }
    ensures { out.new ≡ put_words out.old at (address_in n address) }
{
    match n {
        0 => {},
        1 => word::put_word(out, at, address as u32),
        _ => {
            word::put_word(out, at, (address % 4294967296) as u32);
            word::put_word(out, at + 1, (address / 4294967296) as u32);
        },
    }
}
