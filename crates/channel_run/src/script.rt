// A script: a word for each event, its letter and its number.
ghost use Rattle.std.specs.Prelude.{◌≡◌};
ghost use Rattle.channel_run.specs.Script.{event_in};

// The letter and the number of a word, which is no event where it has fewer than two bytes.
pub fn read(word: &[u8]) -> Option<(u8, u32)>
    ensures { result ≡ event_in word.now }
{
    match word {
        [letter, digit, ..] => Some((*letter, u32::from(*digit % 16))),
        _ => None,
    }
}
