// The training table over any number of restarts: its complete mark stands only over 24 rows of one life. The crate is
// a theorem and no program: specs/ states it, proofs/ proves it.
#![tactic(auto)]
