// The controller's end: the verdict on a datagram, and the call that carries it out.
//
// The contracts cite specs/, where document 01's sentences have their definitions, in the file named after the module.
#![tactic(auto)]

pub mod serving;
pub mod verdict;
