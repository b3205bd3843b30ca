// Every message is carried out once, in order, over a channel that loses, repeats and reorders. The crate is a theorem
// and no program: specs/ states it, proofs/ proves it, and the crates above cite both.
#![tactic(auto)]
