// What happens in the night: a line for each life, a letter and a number for each event.
//   f0  the loader begins fresh, without asking     m0  the next message of its attempt is given, and sent
//   q5  its discovery comes                         a1  what was sent of message 1 comes
//   x6  a stranger's discovery comes                b1  the last answer to it comes to the loader
//   h5  the answer to its own comes to the loader   z7  a hand spoils the last word of row 7
//   e0  a restart ends the life, e1 a reset of the controller; e2 the night is over
// "Comes" alone is: to the controller. Messages 0 to 3 clear, write, read back, set the mark; what never comes is lost.
use channel_run::night::End;
use channel_run::script;
use std::fmt;

pub(crate) const NIGHT: &str = "f0 m0 e0
x6 q5 e0
q5 h5 m0 a0 a0 e0
q5 h5 m0 a0 b6 b5 b0 b0 m1 a1 a0 e1
f0 m0 a0 b0 m1 a1 a1 b0 b1 b1 m2 a2 e0
q5 x6 h5 m0 a0 b0 m1 a1 b1 m2 a2 a1 a2 b1 b2 m3 a2 e0
q5 h5 m0 a0 b0 m0 m1 m1 a1 b1 m2 a2 b2 m3 a3 a2 a3 e0
e0
q5 h5 m0 a0 b0 m1 a0 e0
q5 h5 m0 a0 b0 m1 a1 b1 m2 e0
q5 h5 m0 a0 b0 m1 a1 b1 z7 m2 a2 b2 m3 e0
q5 h5 m0 a0 a0 b0 m1 a0 a1 a0 b0 b1 m2 a2 a1 b1 b2 m3 a2 a3 a3 b2 b3 b3 m3 e2";

// An event, with the number of its message or its datagram.
#[derive(Clone, Copy)]
pub(crate) enum Event {
    Message,
    Comes(u32),
    Answer(u32),
    Asks,
    Stranger(u32),
    Hears(u32),
    Fresh,
    Spoils,
    Ends(End),
}

impl Event {
    // The event of a word, where it is one.
    pub(crate) fn read(word: &str) -> Option<Event> {
        let (letter, i) = script::read(word.as_bytes())?;
        match letter {
            b'm' => Some(Event::Message),
            b'a' => Some(Event::Comes(i)),
            b'b' => Some(Event::Answer(i)),
            b'q' => Some(Event::Asks),
            b'x' => Some(Event::Stranger(i)),
            b'h' => Some(Event::Hears(i)),
            b'f' => Some(Event::Fresh),
            b'z' => Some(Event::Spoils),
            b'e' => Some(Event::Ends(End::of(i))),
            _ => None,
        }
    }
}

// What it is called, and the number of a message that comes or is answered.
impl fmt::Display for Event {
    fn fmt<W: fmt::Write>(&self, f: &mut fmt::Formatter<W>) -> fmt::Result {
        match self {
            Event::Message => write!(f, "  message"),
            Event::Comes(i) => write!(f, "  comes {i}"),
            Event::Answer(i) => write!(f, "  answer {i}"),
            Event::Asks => write!(f, "  asks"),
            Event::Stranger(_) => write!(f, "  stranger asks"),
            Event::Hears(_) => write!(f, "  hears"),
            Event::Fresh => write!(f, "  begins fresh"),
            Event::Spoils => write!(f, "  a hand spoils row 7"),
            Event::Ends(_) => write!(f, "life "),
        }
    }
}
