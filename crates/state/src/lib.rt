// What a session holds between calls, its state and its log of events, and what a refusal says.
#![tactic(auto)]

pub mod events;
pub mod lent;
pub mod numbers;
pub mod refusals;
pub mod state;
