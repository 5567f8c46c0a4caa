// What the program prints of calls with their answers, and of events.
use state::refusals::Refusal;
use state::state::{Answer, Event};
use std::io;

// A refusal by the page's name, on its place.
fn refused(rt: &HostRuntime, refusal: u16, place: u16) -> io::Result<()> {
    match Refusal::try_from(refusal) {
        Ok(refusal) => println!(rt; "{refusal} on {place}"),
        Err(_) => println!(rt; "no name on {place}"),
    }
}

// An answer is what C gets, so done is a number there: 0.
pub fn is_done(answer: &Answer) -> bool {
    answer.refusal == 0
}

// A call: its operation and arguments, and its value or its refusal on its place.
pub fn line(rt: &HostRuntime, [op, a, b, c]: [u32; 4], answer: &Answer) -> io::Result<()> {
    print!(rt; "  {op}({a}, {b}, {c}): ")?;
    if is_done(answer) {
        println!(rt; "{}", answer.value)
    } else {
        refused(rt, answer.refusal, answer.place)
    }
}

pub fn event(rt: &HostRuntime, e: &Event) -> io::Result<()> {
    print!(rt; "  {}: ", e.op)?;
    refused(rt, e.refusal.into(), e.place.into())
}
