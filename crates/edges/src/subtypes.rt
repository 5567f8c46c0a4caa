// Subtypes, by the table that a call asks and by the recursion from a type to its parent.
use dictionary::{TYPES, pairs, parents};
use std::io;

// What both say of a pair, or that they differ.
fn told(a: u32, b: u32) -> char {
    match (pairs::subtype(a, b), parents::subtype(a, b)) {
        (true, true) => '1',
        (false, false) => '0',
        _ => '?',
    }
}

// All pairs of types, and of types with the first number that is none.
pub fn run(rt: &HostRuntime) -> io::Result<()> {
    println!(rt;
        "Subtypes by the table and by parents: 1 if both say so, 0 if neither does, ? if they differ."
    )?;
    for a in 0..=TYPES {
        print!(rt; "  {a}: ")?;
        for b in 0..=TYPES {
            print!(rt; "{}", told(a, b))?;
        }
        println!(rt)?;
    }
    Ok(())
}
