// Which argument was wrong, where the refusal alone does not tell.
use crate::asking::Case;
use std::io;

// A schema instance of repository 0 and a model of repository 1, kept; no transaction.
fn of_two_repositories(rt: &HostRuntime) -> io::Result<Case<'_>> {
    let mut case = Case::started(rt)?;
    case.lead([3, 1, 0, 0])?;
    case.lead([30, 0, 1, 7])?;
    case.lead([20, 1, 1, 7])?;
    case.lead([9, 0, 0, 0])?;
    Ok(case)
}

// 32 with one repository closed.
fn add_without(rt: &HostRuntime, repository: u32) -> io::Result<()> {
    let mut case = of_two_repositories(rt)?;
    case.lead([4, repository, 0, 0])?;
    case.lead([5, 0, 0, 0])?;
    case.show([32, 0, 0, 0])
}

fn whose_repository(rt: &HostRuntime) -> io::Result<()> {
    println!(rt; "Whose repository is closed: the schema instance's, the model's.")?;
    add_without(rt, 0)?;
    add_without(rt, 1)
}

fn which_type(rt: &HostRuntime) -> io::Result<()> {
    println!(rt; "Which type is none: of two the first.")?;
    let mut case = Case::started(rt)?;
    case.show([46, 10, 11, 0])?;
    case.show([46, 9, 10, 0])?;
    case.show([46, 2, 8, 0])
}

pub fn run(rt: &HostRuntime) -> io::Result<()> {
    whose_repository(rt)?;
    which_type(rt)
}
