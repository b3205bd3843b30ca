// Any two results that a call of either end allows for one input are equal. The crate is a theorem and no program:
// specs/ states it for each call, proofs/ proves it.
#![tactic(auto)]
