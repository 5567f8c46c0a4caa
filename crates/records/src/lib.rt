// What the reader's program reads and prints, with no session behind it: a record from the bytes that it begins, and
// the lines of text. Every byte slice is lent, and of any length.
#![tactic(auto)]

pub mod decoding;
pub mod lines;
