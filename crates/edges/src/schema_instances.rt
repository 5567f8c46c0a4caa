// Schema instances at the edge of their table.
use crate::asking::Case;
use std::io;

fn last(rt: &HostRuntime) -> io::Result<()> {
    println!(rt;
        "The last schema instance, 15: made, used, deleted, made once more; one beyond it has no room."
    )?;
    let mut case = Case::started(rt)?;
    case.lead_all(15, |name| [30, 0, 1, name])?;
    case.show([30, 0, 1, 15])?;
    case.show([30, 0, 1, 16])?;
    case.show([30, 0, 1, 15])?;
    case.lead_all(63, |name| [20, 0, 1, name])?;
    case.lead_all(63, |model| [32, 15, model, 0])?;
    // the last model in the last set, twice, and out of it
    case.lead([20, 0, 1, 63])?;
    case.show([32, 15, 63, 0])?;
    case.show([32, 15, 63, 0])?;
    case.show([33, 15, 63, 0])?;
    case.show([33, 15, 63, 0])?;
    case.show([31, 15, 0, 0])?;
    case.show([30, 0, 2, 15])
}

fn freed(rt: &HostRuntime) -> io::Result<()> {
    println!(rt; "Of 16 schema instances 7 is deleted, and the next one made is 7.")?;
    let mut case = Case::started(rt)?;
    case.lead_all(16, |name| [30, 0, 1, name])?;
    case.show([31, 7, 0, 0])?;
    case.show([30, 0, 1, 16])?;
    case.show([30, 0, 1, 17])
}

pub fn run(rt: &HostRuntime) -> io::Result<()> {
    last(rt)?;
    freed(rt)
}
