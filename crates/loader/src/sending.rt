// The sender: made fresh or from a discovery's answer; offering, sending, taking an answer. And the fixed discovery.
ghost use Rattle.std.specs.Prelude.{◌≡◌};
ghost use Rattle.initiator.specs.Sender.{fresh_sender, start_of, offer_of, take_of};
ghost use Rattle.loader.specs.Sending.{sending_of, fixed_discovery};

use header::refusal::Refusal;
use initiator::sender::{Moved, Sender, Taken};
use message::discovery;

// What sending comes to: its refusal (number 0: none), and how many bytes go out, all of them the message's own.
#[repr(C)]
#[derive(Drop)]
pub struct Sending {
    pub refusal: Refusal,
    pub length: usize,
}

// The fixed discovery's bytes.
#[repr(C)]
#[derive(Drop)]
pub struct Discovery {
    pub bytes: [u8; 12],
}

// The fixed discovery, which asks a controller for its newest tag.
pub fn charkhavo_discovery() -> Discovery
    ensures { result ≡ fixed_discovery }
{
    Discovery {
        bytes: discovery::bytes(),
    }
}

// The sender of a fresh pair.
pub fn charkhavo_fresh() -> Sender
    ensures { result ≡ fresh_sender }
{
    Sender::fresh()
}

// The sender that the answer to the fixed discovery makes; 32 to 35, 38, with a sender that every later call refuses by
// 37.
pub fn charkhavo_discovered(answer: &[u8]) -> Moved
    ensures { result ≡ start_of answer.now }
{
    Moved::of(Sender::discovered(answer), Sender::stopped())
}

// Offers a message, which then waits; 37, 36 where four wait, 31. Refused, the sender is unchanged.
pub fn charkhavo_offer(sender: Sender, message: &[u8]) -> Moved
    ensures { result ≡ offer_of sender message.now }
{
    Moved::of(sender.offer(message), sender)
}

// Whether a message that waits and is not answered may go out, and how long it is: 37, 30, 31.
pub fn charkhavo_send(sender: Sender, message: &[u8]) -> Sending
    ensures { result ≡ sending_of sender message.now }
{
    match sender.send(message) {
        Ok(part) => Sending {
            refusal: Refusal::of(Refusal::NONE),
            length: part.len(),
        },
        Err(refusal) => Sending { refusal, length: 0 },
    }
}

// Takes an answer to the lent message, which waits and is not answered; 37, 30, 31 to 35. It gives how many messages
// ended, the oldest ones: none where an older one is still unanswered. Refused, the sender is unchanged.
pub fn charkhavo_take(sender: Sender, message: &[u8], answer: &[u8]) -> Taken
    ensures { result ≡ take_of sender message.now answer.now }
{
    Taken::of(sender.take(message, answer), sender)
}
