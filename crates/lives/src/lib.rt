// Any number of restarts of the loader and resets of the controller: what its lives, one after another, make of memory.
// The crate is a theorem and no program: specs/ states it, proofs/ proves it.
#![tactic(auto)]
