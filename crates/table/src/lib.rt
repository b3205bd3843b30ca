// The training table, above the sender: an attempt at loading it goes in by value and comes back.
//
// An attempt is four messages, one at a time: `attempt::message` gives the next one in a lent output, offered and ready
// to be sent any number of times; `attempt::take` takes an answer to it, and says what comes next, or how the attempt
// ended. The mark is set only after every row came back as sent.
#![tactic(auto)]

pub mod attempt;
mod judging;
