// Carrying out a message: each command done on memory, and its answer put where it is sent and stored.
//
// The contracts cite specs/, where document 01's sentences have their definitions, in the file named after the module.
#![tactic(auto)]

pub mod carry;
pub mod putting;
