// The words of a table: where each entry stands, what its fields are, sets of models, searches over
// entries, copies. Nothing here knows a type or a session. A table is a lent slice of words of any
// length: what lies past its end reads as 0 and is not written.
#![tactic(auto)]

pub mod copies;
pub mod entries;
pub mod fields;
pub mod layout;
pub mod search;
pub mod sets;
