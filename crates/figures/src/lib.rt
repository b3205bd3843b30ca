// The controller in figures: the bench sheet's marked lines, more calls, and what they leave, from bytes. The crate is
// computed statements and no program: specs/ has them, proofs/ computes them.
#![tactic(auto)]
