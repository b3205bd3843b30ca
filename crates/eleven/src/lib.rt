// Closed nights of restarts, from bytes: the eleven, and what comes of a channel that a restart does not empty. The
// crate is computed examples and no program: specs/ has them, proofs/ computes them.
#![tactic(auto)]
