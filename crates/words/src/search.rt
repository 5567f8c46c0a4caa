// Searches over all entries of a kind, the last one included.
ghost use Rattle.std.specs.Prelude.{◌≡◌, min};
ghost use Rattle.words.specs.Layout.{count_of};
ghost use Rattle.words.specs.Entries.{cursor_in, first_free, next_free, is_taken};
ghost use Rattle.words.specs.Quick.Numbered.{numbered};

use crate::entries::{cursor_in, first_word, present};
use crate::fields::{is_free, is_named};
use crate::layout::{Kind, count};

// The first free entry from a given one on. One that is not present is free.
fn first_free(t: &[u64], kind: Kind, from: u32) -> Option<u32>
    ensures { result ≡ numbered kind (first_free t.now kind from) }
{
    let n = present(t, kind);
    // Tried as `find`, with `or_else` for the rest: a goal on the numbers that it passes stays open.
    for i in from..n {
        if is_free(first_word(t, kind, i)) {
            return Some(i);
        }
    }
    let behind = from.max(n);
    (behind < count(kind)).then_some(behind)
}

// The cursor; of one that is past the last entry the count, from which on nothing is free either.
fn tried_first(t: &[u64], kind: Kind) -> u32
    ensures { result ≡ min (cursor_in t.now kind) (count_of kind) }
{
    cursor_in(t, kind).min(u64::from(count(kind))) as u32
}

// The number that a creation takes, from the cursor on and then from 0.
pub fn next_free(t: &[u64], kind: Kind) -> Option<u32>
    ensures { result ≡ numbered kind (next_free t.now kind) }
{
    first_free(t, kind, tried_first(t, kind)).or_else(|| first_free(t, kind, 0))
}

// Some entry has this name in this repository.
pub fn is_taken(t: &[u64], kind: Kind, repository: u32, name: u32) -> bool
    ensures { result ≡ is_taken t.now kind repository name }
{
    (0..present(t, kind)).any(|i| is_named(first_word(t, kind, i), repository, name))
}
