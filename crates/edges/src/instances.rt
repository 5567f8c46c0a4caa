// Instances at the edge of their table.
use crate::asking::Case;
use std::io;

fn last(rt: &HostRuntime) -> io::Result<()> {
    println!(rt;
        "The last instance, 127: made, used, deleted, made once more; one beyond it has no room."
    )?;
    let mut case = Case::started(rt)?;
    case.lead([20, 0, 1, 7])?;
    case.lead([23, 0, 0, 0])?;
    case.lead_all(127, |_| [40, 0, 2, 0])?;
    case.show([40, 0, 2, 0])?;
    case.show([40, 0, 2, 0])?;
    case.show([44, 127, 2, 4294967295])?;
    case.show([42, 127, 2, 0])?;
    // kept, and read again after a commit
    case.show([9, 0, 0, 0])?;
    case.lead([5, 0, 0, 0])?;
    case.lead([23, 0, 0, 0])?;
    case.show([42, 127, 2, 0])?;
    case.show([41, 127, 0, 0])?;
    case.show([42, 127, 2, 0])?;
    case.show([40, 0, 3, 0])?;
    case.show([43, 127, 2, 0])
}

fn freed(rt: &HostRuntime) -> io::Result<()> {
    println!(rt; "Of 128 instances 17 is deleted, and the next one made is 17.")?;
    let mut case = Case::started(rt)?;
    case.lead([20, 0, 1, 7])?;
    case.lead([23, 0, 0, 0])?;
    case.lead_all(128, |_| [40, 0, 0, 0])?;
    case.show([41, 17, 0, 0])?;
    case.show([40, 0, 0, 0])?;
    case.show([40, 0, 0, 0])
}

pub fn run(rt: &HostRuntime) -> io::Result<()> {
    last(rt)?;
    freed(rt)
}
