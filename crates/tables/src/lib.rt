// The tables of a chip: what their words say, whether they are sound, and what each change writes. Words and types are
// asked through the crates below, by their contracts.
#![tactic(auto)]

pub mod changes;
pub mod deletions;
mod edits;
mod going;
mod labels;
mod live;
mod names;
mod pointers;
pub mod sound;
mod values;
pub mod view;
