// The lent memory: when a command fails, its moves, and memory after them.
//
// The contracts cite specs/, where document 01's sentences have their definitions, in the file named after the module.
#![tactic(auto)]

pub mod moves;
