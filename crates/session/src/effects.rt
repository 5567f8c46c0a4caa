// What several operations make of the tables: a commit, a drop, a creation.
ghost use Rattle.std.specs.Prelude.{◌≡◌, List, ℕ};
ghost use Rattle.session.specs.Effects.{if_writing, working_after, kept_after, Commit, Drop, created as created_in};
ghost use Rattle.session.specs.Quick.Served.{serving, served, served_by};

use state::refusals::{Refusal, Refused, room_of};
use state::state::{State, Transaction};
use tables::changes::{Change, apply};
use words::copies::copy;
use words::layout::Kind;
use words::search::next_free;

// A commit, only where a transaction writes.
pub fn commit_writing(s: State, working: &[u64], kept: &mut [u64])
    ensures { kept.new ≡ kept_after (if_writing s Commit) working.now kept.old }
{
    if s.under(Transaction::ReadWrite) {
        copy(working, kept);
    }
}

// What is not committed is dropped, where a transaction writes. A function of its own: it lends the other table for writing.
pub fn drop_writing(s: State, working: &mut [u64], kept: &[u64])
    ensures { working.new ≡ working_after (if_writing s Drop) working.old kept.now }
{
    if s.under(Transaction::ReadWrite) {
        copy(kept, working);
    }
}

// The next free number is taken; NO_ROOM if every entry is live.
pub fn created(kind: Kind, first: u64, s: State, w: &mut [u64]) -> Result<u32, Refused>
    ensures { (kept : List ℕ) → serving (served result s) w.new kept ≡ served_by (created_in kind first s w.old) w.old kept }
{
    let Some(n) = next_free(w, kind) else {
        return Err(Refusal::NoRoom.on(room_of(kind)));
    };
    apply(w, Change::Made(kind, n, first));
    Ok(n)
}
