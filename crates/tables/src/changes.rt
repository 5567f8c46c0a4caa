// The changes that an operation makes in a table.
ghost use Rattle.std.specs.Prelude.{◌≡◌};
ghost use Rattle.tables.specs.Changes as spec;

use crate::deletions::remove;
use crate::edits::{join, leave, put, unset};
use words::entries::make;
use words::layout::Kind;

// A change, as an operation says it. Each operation knows its own and might call what `apply` does for it: but a change is what
// the definitions of effects hold (`Changed`), what `apply` writes is said in one place, and demand 3 speaks of it.
#[derive(Clone, Copy, Debug, PartialEq, Eq)]
pub enum Change {
    // Entry n of a kind is made with this first word.
    Made(Kind, u32, u64),
    // Entry n of a kind is gone, with all that goes with it.
    Gone(Kind, u32),
    // Into, out of the set of a schema instance: a model.
    Joined(u32, u32),
    Left(u32, u32),
    // Into an instance, as attribute k: a value.
    Put(u32, u32, u32),
    // In an instance: attribute k.
    Unset(u32, u32),
}

// In place at each call: a change that is known there needs no test of which it is.
#[inline(always)]
pub fn apply(t: &mut [u64], change: Change)
    ensures { t.new ≡ spec.apply change t.old }
{
    match change {
        Change::Made(kind, n, first) => make(t, kind, n, first),
        Change::Gone(kind, n) => remove(t, kind, n),
        Change::Joined(s, m) => join(t, s, m),
        Change::Left(s, m) => leave(t, s, m),
        Change::Put(i, k, v) => put(t, i, k, v),
        Change::Unset(i, k) => unset(t, i, k),
    }
}
