// Models at the edge of their table.
use crate::asking::Case;
use std::io;

// The last model, 63, is an entry like the others; one more has no room, but a taken name is told first.
fn last(rt: &HostRuntime) -> io::Result<()> {
    println!(rt;
        "The last model, 63: made, used, deleted, made once more; one beyond it has no room."
    )?;
    let mut case = Case::started(rt)?;
    case.lead_all(63, |name| [20, 0, 1, name])?;
    case.show([20, 0, 1, 63])?;
    case.show([20, 0, 1, 64])?;
    // a name that the last model has, and one that it has in another repository
    case.show([20, 0, 1, 63])?;
    case.lead([3, 1, 0, 0])?;
    case.show([20, 1, 1, 63])?;
    // an instance of it is written and read
    case.show([23, 63, 0, 0])?;
    case.show([40, 63, 0, 0])?;
    case.show([44, 0, 0, 77])?;
    case.show([42, 0, 0, 0])?;
    case.show([21, 63, 0, 0])?;
    case.show([42, 0, 0, 0])?;
    case.show([20, 1, 2, 63])
}

// The place that a deletion frees in a full table is the next one taken.
fn freed(rt: &HostRuntime) -> io::Result<()> {
    println!(rt; "Of 64 models 17 is deleted, and the next one made is 17.")?;
    let mut case = Case::started(rt)?;
    case.lead_all(64, |name| [20, 0, 1, name])?;
    case.lead([23, 17, 0, 0])?;
    case.show([21, 17, 0, 0])?;
    case.show([20, 0, 1, 64])?;
    case.show([20, 0, 1, 65])
}

pub fn run(rt: &HostRuntime) -> io::Result<()> {
    last(rt)?;
    freed(rt)
}
