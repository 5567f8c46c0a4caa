// Which number a creation gives: numbers go round, so that the same few words are not written all year.
use crate::asking::Case;
use std::io;

fn onward(rt: &HostRuntime) -> io::Result<()> {
    println!(rt; "A creation goes on from the last number given, though a lower one is free.")?;
    let mut case = Case::started(rt)?;
    case.lead([20, 0, 1, 7])?;
    case.lead([23, 0, 0, 0])?;
    case.show([40, 0, 0, 0])?;
    case.show([41, 0, 0, 0])?;
    case.show([40, 0, 0, 0])?;
    case.show([41, 1, 0, 0])?;
    case.show([40, 0, 0, 0])
}

fn round(rt: &HostRuntime) -> io::Result<()> {
    println!(rt;
        "After the last number, 15, the free ones from 0 on come again; live ones are passed over."
    )?;
    let mut case = Case::started(rt)?;
    case.lead_all(15, |name| [30, 0, 1, name])?;
    case.show([31, 5, 0, 0])?;
    case.show([31, 2, 0, 0])?;
    case.show([30, 0, 1, 15])?;
    case.show([30, 0, 1, 16])?;
    case.show([30, 0, 1, 17])?;
    case.show([30, 0, 1, 18])
}

fn over_an_abort(rt: &HostRuntime) -> io::Result<()> {
    println!(rt; "What an abort drops is given again; what a commit kept is not.")?;
    let mut case = Case::started(rt)?;
    case.show([20, 0, 1, 7])?;
    case.show([7, 0, 0, 0])?;
    case.show([20, 0, 1, 8])?;
    case.show([8, 0, 0, 0])?;
    case.show([20, 0, 1, 9])
}

pub fn run(rt: &HostRuntime) -> io::Result<()> {
    onward(rt)?;
    round(rt)?;
    over_an_abort(rt)
}
