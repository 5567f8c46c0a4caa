// The log of events at its edge.
use crate::asking::Case;
use crate::printing::event;
use std::io;

// Refusals of the operations 101 to 117, which no page lists, and the events of the log that is full then, the oldest first.
pub fn run(rt: &HostRuntime) -> io::Result<()> {
    println!(rt; "Seventeen refusals leave events 2 to 17.")?;
    let mut case = Case::fresh(rt);
    case.lead([1, 0, 0, 0])?;
    for op in 101..=117 {
        case.show([op, 0, 0, 0])?;
    }
    for e in &case.session.log.events {
        event(rt, e)?;
    }
    Ok(())
}
