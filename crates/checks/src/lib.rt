// What is asked before an operation is done: which one a number names, the conditions of the refusals, what several
// operations ask alike, and the gate.
#![tactic(auto)]

pub mod conditions;
pub mod gate;
pub mod numbers;
pub mod operations;
pub mod shared;
