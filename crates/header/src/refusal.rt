// A refusal: its number in document 01's tables, and the index, from 0, of the header word that was looked at. Refusals
// 3 to 9, 31 and 33 to 35 have such a word; all others have index 0.
ghost use Rattle.std.specs.Prelude.{◌≡◌, cond, Ok, Err};
ghost use Rattle.header.specs.Refusal.{refused_at, refusal};

#[repr(C)]
#[derive(Clone, Copy, Debug, PartialEq, Eq)]
pub struct Refusal {
    pub number: u32,
    pub at: u32,
}

impl Refusal {
    // No refusal.
    pub const NONE: u32 = 0;

    // Turned away by the controller; 2 also by framing.

    // Memory, stored answers, kept requests or output has a forbidden length, or the record is not one.
    pub const LENT: u32 = 1;
    // No bytes, not a multiple of 4, or over the limit.
    pub const LENGTH: u32 = 2;
    // A header or a body runs past the end.
    pub const PAST_END: u32 = 3;
    // Byte 0 differs from the first header's.
    pub const BYTE_0: u32 = 4;
    // Kind 3.
    pub const KIND: u32 = 5;
    // Reserved bits set.
    pub const RESERVED: u32 = 6;
    // Count not allowed.
    pub const COUNT: u32 = 7;
    // Byte enables not allowed.
    pub const ENABLES: u32 = 8;
    // Words follow the LAST command.
    pub const AFTER_LAST: u32 = 9;
    // The answer with all commands OK would pass the limit.
    pub const LONG_ANSWER: u32 = 10;
    // A tag that is neither held nor the next, discovery clear.
    pub const OUT_OF_STEP: u32 = 11;
    // A held tag, discovery clear, and other bytes than those of its kept request.
    pub const OTHER_BYTES: u32 = 12;

    // Straight onto Ethernet.

    // A payload of exactly 46 bytes that is not all zero behind the body of its LAST header.
    pub const PADDING: u32 = 14;
    // A frame shorter than 60 bytes, or of another type.
    pub const FRAME: u32 = 15;

    // Building a message.

    // Short output, also for a frame, kind over 2, tag over 15, or a building record that no sequence of calls gives.
    pub const BUILDING: u32 = 21;
    // Adding after closing, closing twice, or closing with nothing added.
    pub const CLOSING: u32 = 22;
    // Count not allowed.
    pub const ADDED_COUNT: u32 = 23;
    // Byte enables not allowed.
    pub const ADDED_ENABLES: u32 = 24;
    // Address of 2^32 or more in 32-bit mode.
    pub const ADDED_ADDRESS: u32 = 25;
    // The request or its all-OK answer would pass the limit.
    pub const NO_ROOM: u32 = 26;

    // The sender.

    // Sending or taking an answer while none waits; a training table that is done or has ended has no message.
    pub const NONE_WAITS: u32 = 30;
    // The request would be refused 2 to 10, has the discovery bit, or its tag is not the one to offer; of one that is
    // sent or whose answer is taken, not that of a message that waits and is not answered.
    pub const REQUEST: u32 = 31;
    // An answer's length is 0, not a multiple of 4, or over the limit.
    pub const ANSWER_LENGTH: u32 = 32;
    // An answer's byte 0 is not the request's with kind 3.
    pub const ANSWER_BYTE_0: u32 = 33;
    // A later byte 0 differs, reserved or bits 15:12 set, status 3 or more, or count wrong.
    pub const ANSWER_HEADER: u32 = 34;
    // A header or a body past the end, LAST missing or early, or words after it.
    pub const ANSWER_END: u32 = 35;
    // Offering while four wait; of the training table, while one does.
    pub const OFFERING: u32 = 36;
    // The sender record's next tag is over 15, or more than four wait.
    pub const SENDER: u32 = 37;
    // The discovery's status is not OK, or its word 1 is no stored tag.
    pub const DISCOVERY: u32 = 38;

    // The training table.

    // Room for fewer than 193 words, a start that is no multiple of 4, or an end past 2^32.
    pub const SET_UP: u32 = 40;

    // The refusal of this number, with index 0.
    pub fn of(number: u32) -> Refusal
        ensures { result ≡ refusal number }
    {
        Refusal { number, at: 0 }
    }
}

// Whether all is well, or the refusal of this number at this word.
pub fn check(ok: bool, number: u32, at: u32) -> Result<(), Refusal>
    ensures { result ≡ cond ok (Ok tt) (Err (refused_at number at)) }
{
    if ok {
        return Ok(());
    }
    Err(Refusal { number, at })
}
