// Tags: what the controller keeps of the last four messages beside their bytes and their answers, and what a message's
// tag says against it.
//
// The contracts cite specs/, where document 01's sentences have their definitions, in the file named after the module.
#![tactic(auto)]

pub mod record;
pub mod rule;
pub mod sound;
