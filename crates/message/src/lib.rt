// The rules of a request: what the commands of a datagram are, and which datagrams are refused, 2 to 10. The
// controller's and the loader's end stand above it and know it by its contracts and laws.
//
// The contracts cite specs/, where document 01's sentences have their definitions, in the file named after the module.
#![tactic(auto)]

pub mod address;
pub mod discovery;
pub mod faults;
pub mod walk;
