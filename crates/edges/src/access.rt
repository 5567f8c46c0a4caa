// Access that a read gives, and how it grows.
use crate::asking::Case;
use std::io;

// A plate in model 0 with its number alone, kept; a read-write transaction, and no access.
fn asleep(rt: &HostRuntime) -> io::Result<Case<'_>> {
    let mut case = Case::started(rt)?;
    case.lead([20, 0, 1, 7])?;
    case.lead([23, 0, 0, 0])?;
    case.lead([40, 0, 2, 0])?;
    case.lead([44, 0, 0, 5])?;
    case.lead([9, 0, 0, 0])?;
    case.lead([5, 0, 0, 0])?;
    Ok(case)
}

// 24 tells whether there is access to end.
fn woken(rt: &HostRuntime) -> io::Result<()> {
    println!(rt; "A read wakes a model without access, one that is refused does not.")?;
    let mut case = asleep(rt)?;
    case.show([42, 0, 1, 0])?;
    case.show([43, 0, 3, 0])?;
    case.show([24, 0, 0, 0])?;
    case.show([42, 0, 0, 0])?;
    case.show([24, 0, 0, 0])?;
    // a test of what is not set is done
    case.show([43, 0, 1, 0])?;
    case.show([24, 0, 0, 0])?;
    // the repository is closed
    case.lead([9, 0, 0, 0])?;
    case.lead([4, 0, 0, 0])?;
    case.lead([6, 0, 0, 0])?;
    case.show([42, 0, 0, 0])
}

// A woken model is not written before it is promoted.
fn promoted(rt: &HostRuntime) -> io::Result<()> {
    println!(rt; "A woken model has RO access, and promote makes it RW.")?;
    let mut case = asleep(rt)?;
    case.show([25, 0, 0, 0])?;
    case.show([42, 0, 0, 0])?;
    case.show([23, 0, 0, 0])?;
    case.show([44, 0, 0, 6])?;
    case.show([25, 0, 0, 0])?;
    case.show([44, 0, 0, 6])?;
    case.show([42, 0, 0, 0])?;
    case.show([25, 0, 0, 0])
}

pub fn run(rt: &HostRuntime) -> io::Result<()> {
    woken(rt)?;
    promoted(rt)
}
