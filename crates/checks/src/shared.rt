// Checks in the page's order: each refuses where its condition holds, and `?` goes on to the next where it does not.
ghost use Rattle.std.specs.Prelude.{◌≡◌, ◌∷◌, cond};
ghost use Rattle.state.specs.Refusals.{◌on◌};
ghost use Rattle.state.specs.Numbers.{number_of, place_number};
ghost use Rattle.checks.specs.Checks.{◌gives◌, in_reach, writable as writable_of, accessed as accessed_of};
ghost use Rattle.checks.specs.Quick.Asked.{Asks};

use crate::conditions::{away, missing, no_access, no_writing};
use state::refusals::{Place, Refusal, Refused, on};
use state::state::State;

// The refusal on its place if its condition holds.
#[tactic(auto, unfolding(crate::specs::Checks::first_of))]
pub fn refuse_if(condition: bool, refusal: Refusal, place: Place) -> Result<(), Refused>
    ensures { Asks (λ rest. condition gives number_of refusal on place_number place ∷ rest) result }
{
    if condition {
        Err(refusal.on(place))
    } else {
        Ok(())
    }
}

// The entry with this first word is there, or this refusal is given, and its repository is open. The argument at this place
// names it.
pub fn in_reach(label: u64, refusal: Refusal, place: Place, s: State) -> Result<(), Refused>
    ensures { Asks (in_reach label (number_of refusal) (place_number place) s) result }
{
    refuse_if(missing(label), refusal, place)?;
    refuse_if(away(s, label), Refusal::RpNopn, place)
}

// The entry with this first word is there, or this refusal is given, and model m has read-write access.
pub fn writable(entry: u64, refusal: Refusal, m: u32, s: State) -> Result<(), Refused>
    ensures { Asks (writable_of entry (number_of refusal) m s) result }
{
    refuse_if(missing(entry), refusal, Place::First)?;
    refuse_if(no_writing(s, m), Refusal::MxNrw, Place::First)
}

// Model m with this label is there, and it has access.
pub fn accessed(label: u64, m: u32, s: State) -> Result<(), Refused>
    ensures { Asks (accessed_of label m s) result }
{
    refuse_if(missing(label), Refusal::MoNexs, Place::First)?;
    refuse_if(no_access(s, m), Refusal::MxNdef, Place::First)
}

// By numbers: the refusal on its place if its condition holds, else what the rest gives.
pub fn first(condition: bool, refusal: u8, place: u8, rest: u32) -> u32
    ensures { result ≡ cond condition (refusal on place) rest }
{
    if !condition {
        return rest;
    }
    on(refusal, place)
}
