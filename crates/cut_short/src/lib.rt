// The training table from bytes: in a life that is cut short at every message, the mark after each, and the rows; and
// the table that fails.
// The crate is computed examples and no program: specs/ states them, proofs/ computes them.
#![tactic(auto)]
