// The session machine: a function for each operation, which asks its checks and then makes its change, and the one call.
#![tactic(auto, using(crate::specs::Laws::Rows::none_left))]

pub mod answers;
pub mod call;
mod effects;
mod in_session;
pub mod numbers;
mod perform;
mod readers;
mod sound;
mod writers;
