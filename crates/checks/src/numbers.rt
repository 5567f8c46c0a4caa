// Two shared checks by numbers, for who has a refusal and a place by no more than these: any number is taken, one of the page or
// not. The rest is a refusal on its place that is known already, 0 if there is none, and so is the answer.
ghost use Rattle.std.specs.Prelude.{◌≡◌};
ghost use Rattle.checks.specs.Checks.{first_of, in_reach, writable as writable_of};
ghost use Rattle.checks.specs.Quick.Known.{known};

use crate::conditions::{away, missing, no_writing};
use crate::shared::first;
use state::refusals::Refusal;
use state::state::State;

// The entry with this first word is there, or this refusal is given, and its repository is open; and then the rest. The
// argument at this place names it.
#[tactic(auto, unfolding(crate::specs::Checks::first_of))]
pub fn in_reach(label: u64, refusal: u8, place: u8, s: State, rest: u32) -> u32
    ensures { result ≡ first_of (in_reach label refusal place s (known rest)) }
{
    first(
        missing(label),
        refusal,
        place,
        first(away(s, label), u8::from(Refusal::RpNopn), place, rest),
    )
}

// The entry with this first word is there, or this refusal is given, and model m has read-write access; and then the rest.
#[tactic(auto, unfolding(crate::specs::Checks::first_of))]
pub fn writable(entry: u64, refusal: u8, m: u32, s: State, rest: u32) -> u32
    ensures { result ≡ first_of (writable_of entry refusal m s (known rest)) }
{
    first(
        missing(entry),
        refusal,
        1,
        first(no_writing(s, m), u8::from(Refusal::MxNrw), 1, rest),
    )
}
