// The loader's end: the sender, and what an answer tells of its request.
//
// The contracts cite specs/, where document 01's sentences have their definitions, in the file named after the module.
#![tactic(auto)]

pub mod asking;
pub mod outcome;
pub mod places;
pub mod sender;
