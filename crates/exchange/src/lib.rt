// The two ends of this project over a channel that loses, repeats and reorders: every message is carried out once, in
// order. The crate is a theorem and no program: specs/ states it, proofs/ proves it.
#![tactic(auto)]
