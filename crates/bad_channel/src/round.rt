// A round: what happens in it, and to which message, counted from the first of the round: below 0 it is one of a round
// before. The last of the round before comes late, and the oldest that may still come.
use std::fmt;

#[derive(Clone, Copy)]
pub(crate) enum Event {
    Offer,
    FifthOffer,
    OldAnswer,
    Early,
    Arrives,
    Again,
    Late,
    Discovery,
    Answer,
    AnswerAgain,
}

// What it is called.
impl fmt::Display for Event {
    fn fmt<W: fmt::Write>(&self, f: &mut fmt::Formatter<W>) -> fmt::Result {
        let words = match self {
            Event::Offer => "offer",
            Event::FifthOffer => "fifth offer",
            Event::OldAnswer => "old answer",
            Event::Early => "early",
            Event::Arrives => "arrives",
            Event::Again => "again",
            Event::Late => "late",
            Event::Discovery => "discovery beside",
            Event::Answer => "answer",
            Event::AnswerAgain => "answer again",
        };
        write!(f, "{words}")
    }
}

pub(crate) const ROUND: [(Event, i8); 28] = [
    (Event::Offer, 0),
    (Event::Offer, 1),
    (Event::Offer, 2),
    (Event::Offer, 3),
    (Event::FifthOffer, 4),
    (Event::OldAnswer, -1),
    (Event::Early, 3),
    (Event::Arrives, 0),
    (Event::Early, 2),
    (Event::Arrives, 1),
    (Event::Arrives, 2),
    (Event::Arrives, 3),
    (Event::Again, 0),
    (Event::Again, 1),
    (Event::Again, 2),
    (Event::Again, 3),
    (Event::Late, -1),
    (Event::Late, -11),
    (Event::Discovery, 0),
    (Event::Answer, 3),
    (Event::Answer, 1),
    (Event::AnswerAgain, 3),
    (Event::Answer, 0),
    (Event::OldAnswer, 0),
    (Event::Offer, 4),
    (Event::Arrives, 4),
    (Event::Answer, 4),
    (Event::Answer, 2),
];
