// The page's cases at the edges that are not proved one by one, and what is easy to get wrong: each is run from
// fresh, through `call`, so every state on the way is judged too. A case prints its name and then each call that it is
// about, with the value, or the refusal by its name and its place. The calls that only lead there print nothing unless they are
// refused.
#![tactic(auto)]

mod access;
mod asking;
mod deletions;
mod events;
mod instances;
mod models;
mod places;
mod printing;
mod references;
mod schema_instances;
mod spreading;
mod subtypes;

use std::io;

fn main(rt: HostRuntime) -> io::Result<()> {
    models::run(&rt)?;
    schema_instances::run(&rt)?;
    instances::run(&rt)?;
    spreading::run(&rt)?;
    references::run(&rt)?;
    access::run(&rt)?;
    deletions::run(&rt)?;
    subtypes::run(&rt)?;
    places::run(&rt)?;
    events::run(&rt)
}
