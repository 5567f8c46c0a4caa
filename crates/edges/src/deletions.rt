// What is easy to get wrong (CHIP, edges).
use crate::asking::Case;
use std::io;

// One entry too few in a scan would miss this: the last instance refers to instance 0, by the last set alone.
fn last_entry(rt: &HostRuntime) -> io::Result<()> {
    println!(rt; "The last entry is looked at.")?;
    let mut case = Case::started(rt)?;
    case.lead_all(64, |name| [20, 0, 1, name])?;
    case.lead_all(64, |model| [23, model, 0, 0])?;
    case.lead_all(16, |name| [30, 0, 1, name])?;
    case.lead([32, 15, 0, 0])?;
    case.lead([32, 15, 63, 0])?;
    case.lead_all(127, |_| [40, 0, 2, 0])?;
    case.lead([40, 63, 3, 0])?;
    case.show([44, 127, 2, 0])?;
    case.show([41, 0, 0, 0])?;
    case.show([42, 127, 2, 0])
}

// An abort ends access, since the number may come back as another model's.
fn access_over_an_abort(rt: &HostRuntime) -> io::Result<()> {
    println!(rt; "An abort ends access: the number may come back as another model's.")?;
    let mut case = Case::started(rt)?;
    case.show([20, 0, 1, 7])?;
    case.show([23, 0, 0, 0])?;
    case.show([40, 0, 2, 0])?;
    case.show([8, 0, 0, 0])?;
    case.show([20, 0, 1, 8])?;
    case.show([40, 0, 2, 0])
}

// A plate in model 0 and a cavity in model 1 that refers to it; both models kept, and access ended.
fn referring(rt: &HostRuntime) -> io::Result<Case<'_>> {
    let mut case = Case::started(rt)?;
    case.lead_all(2, |name| [20, 0, 1, name])?;
    case.lead_all(2, |model| [23, model, 0, 0])?;
    case.lead([30, 0, 1, 0])?;
    case.lead_all(2, |model| [32, 0, model, 0])?;
    case.lead([40, 0, 2, 0])?;
    case.lead([40, 1, 3, 0])?;
    case.lead([44, 1, 2, 0])?;
    case.lead([9, 0, 0, 0])?;
    case.lead([5, 0, 0, 0])?;
    Ok(case)
}

// A reference to a deleted instance is unset: its number may be another's soon, at once in a table that was full.
fn reference_left(rt: &HostRuntime) -> io::Result<()> {
    println!(rt; "A deletion unsets references, before the number is taken again.")?;
    let mut case = referring(rt)?;
    case.lead_all(2, |model| [23, model, 0, 0])?;
    case.lead_all(126, |_| [40, 0, 2, 0])?;
    case.show([42, 1, 2, 0])?;
    case.show([41, 0, 0, 0])?;
    case.show([40, 0, 2, 0])?;
    case.show([42, 1, 2, 0])?;
    case.show([43, 1, 2, 0])
}

// A deletion changes no model without RW access.
fn read_only_model(rt: &HostRuntime) -> io::Result<()> {
    println!(rt; "A deletion would change a model without RW access.")?;
    let mut case = referring(rt)?;
    case.lead([23, 0, 0, 0])?;
    case.lead([22, 1, 0, 0])?;
    case.show([41, 0, 0, 0])?;
    case.show([21, 0, 0, 0])?;
    case.show([42, 1, 2, 0])?;
    // with access to both it is done
    case.show([24, 1, 0, 0])?;
    case.show([23, 1, 0, 0])?;
    case.show([21, 0, 0, 0])?;
    case.show([42, 1, 2, 0])
}

pub fn run(rt: &HostRuntime) -> io::Result<()> {
    last_entry(rt)?;
    access_over_an_abort(rt)?;
    reference_left(rt)?;
    read_only_model(rt)
}
