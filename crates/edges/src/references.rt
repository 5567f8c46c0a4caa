// References from one model to another.
use crate::asking::Case;
use std::io;

// A reference into another model needs a set that has both.
fn shared(rt: &HostRuntime) -> io::Result<()> {
    println!(rt; "A reference into another model, before a set has both models and after.")?;
    let mut case = Case::started(rt)?;
    case.lead([20, 0, 1, 0])?;
    case.lead([20, 0, 1, 1])?;
    case.lead([23, 0, 0, 0])?;
    case.lead([23, 1, 0, 0])?;
    // a plate in model 0, a cavity in model 1
    case.lead([40, 0, 2, 0])?;
    case.lead([40, 1, 3, 0])?;
    case.show([44, 1, 2, 0])?;
    case.lead([30, 0, 1, 0])?;
    case.show([32, 0, 0, 0])?;
    case.show([44, 1, 2, 0])?;
    case.show([32, 0, 1, 0])?;
    case.show([44, 1, 2, 0])?;
    case.show([42, 1, 2, 0])?;
    // It outlives the set that allowed it.
    case.show([33, 0, 1, 0])?;
    case.show([42, 1, 2, 0])
}

pub fn run(rt: &HostRuntime) -> io::Result<()> {
    shared(rt)
}
