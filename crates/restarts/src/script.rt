// What happens in the night: a line for each life, a letter and a number for each event.
//   f0  the loader begins fresh, without asking
//   q5  the loader asks: the fixed discovery comes  o3  message 3 is offered, and sent
//   d5  it comes again, or late                     a3  what was sent of it comes
//   x6  a stranger's discovery comes, which has     s3  it is sent again, and comes
//       tag 1; x7: another's, tag 2, sent after 6   b3  its last answer comes back to the sender
//   h5  the last answer to 5 comes to the loader, which takes it for that to its own discovery; h6, h7: that to 6, 7
//   e0  a restart ends the life, e1 a reset of the controller; e2 the night is over
// "Comes" alone is: to the controller. What never comes is lost.
use channel_run::night::End;
use channel_run::script;
use std::fmt;

pub(crate) const NIGHT: &str = "f0 o0 o1 o2 o3 a0 a2 a1 a0 b0 e0
x7 x6 x7 e0
q5 x7 x6 d5 e1
f0 o0 o1 o2 o3 a1 a0 a1 a3 a0 e0
x6 q5 h6 q5 h5 o0 s0 d5 a0 b6 b5 e0
q5 h5 o0 o1 o2 o3 a1 a0 a1 a3 a2 a3 a0 b3 b3 b1 b0 b5 b2 e0
q5 d5 x6 h6 h5 e0
q5 h5 o0 o1 o2 o3 a3 a2 a2 e0
q5 h5 o0 o1 o2 o3 s0 a1 b0 o4 a0 a2 a3 a4 b4 b3 b2 b1 e0
q5 x6 q5 x7 d5 h7 h6 e0
q5 h5 o0 o1 o2 o3 a1 a0 a1 a2 a3 a2 b1 b3 e0
q5 h5 o0 o1 o2 o3 a2 a0 a1 a3 s2 a3 a0 b0 b0 o4 a4 b4 b3 b2 b1 e2";

// An event, with the number of its message or its datagram.
#[derive(Clone, Copy)]
pub(crate) enum Event {
    Offer(u32),
    Comes(u32),
    Again(u32),
    Answer(u32),
    Asks,
    Discovery,
    Stranger(u32),
    Hears(u32),
    Fresh,
    Ends(End),
}

impl Event {
    // The event of a word, where it is one.
    pub(crate) fn read(word: &str) -> Option<Event> {
        let (letter, i) = script::read(word.as_bytes())?;
        match letter {
            b'o' => Some(Event::Offer(i)),
            b'a' => Some(Event::Comes(i)),
            b's' => Some(Event::Again(i)),
            b'b' => Some(Event::Answer(i)),
            b'q' => Some(Event::Asks),
            b'd' => Some(Event::Discovery),
            b'x' => Some(Event::Stranger(i)),
            b'h' => Some(Event::Hears(i)),
            b'f' => Some(Event::Fresh),
            b'e' => Some(Event::Ends(End::of(i))),
            _ => None,
        }
    }
}

// What it is called, and its number.
impl fmt::Display for Event {
    fn fmt<W: fmt::Write>(&self, f: &mut fmt::Formatter<W>) -> fmt::Result {
        match self {
            Event::Offer(i) => write!(f, "  offer {i}"),
            Event::Comes(i) => write!(f, "  comes {i}"),
            Event::Again(i) => write!(f, "  again, comes {i}"),
            Event::Answer(i) => write!(f, "  answer {i}"),
            Event::Asks => write!(f, "  asks 5"),
            Event::Discovery => write!(f, "  discovery, comes 5"),
            Event::Stranger(i) => write!(f, "  stranger asks {i}"),
            Event::Hears(i) => write!(f, "  hears {i}"),
            Event::Fresh => write!(f, "  begins fresh"),
            Event::Ends(_) => write!(f, "life "),
        }
    }
}
