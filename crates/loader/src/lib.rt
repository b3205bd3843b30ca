// The loader's end for its firmware: every call of `building`, `initiator`, `layout` and `table` that it needs, under a
// name and a form that C can call. `loader_c` exports them to C.
//
// Each function takes any records, numbers and bytes, and gives what the call that it hands them to gives. Nothing over
// 16 bytes goes by value, so that a call means the same under every C convention.
#![tactic(auto)]

pub mod build;
pub mod outcome;
pub mod sending;
pub mod training;
