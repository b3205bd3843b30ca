// Building a message: which commands may be added, the record of a message that is being built, and the calls begin,
// add and close.
//
// The contracts cite specs/, where document 01's sentences have their definitions, in the file named after the module.
#![tactic(auto)]

pub mod asked;
pub mod build;
pub mod record;
