// Reading and writing the words of an entry, and the cursor of a kind. A number past the last entry reads as free, and
// writing there changes nothing. An entry goes by its kind and its number, as in the theorems: a struct of both would be made at
// each call only to be taken apart in it.
ghost use Rattle.std.specs.Prelude.{◌≡◌, ◌<◌, length, get_or, set};
ghost use Rattle.words.specs.Layout.{count_of, place_of};
ghost use Rattle.words.specs.Entries.{in_entry, word_of, with_word, cursor_in, one_past, with_words, with_entry, without_entry};
ghost use Rattle.words.specs.Quick.Present.{present_in, Present};

use crate::layout::{Kind, base, count, cursor, place, stride};

fn get(t: &[u64], at: usize) -> u64
    ensures { result ≡ get_or t.now at 0 }
{
    t.get(at).copied().unwrap_or(0)
}

// The one place where a word of a table is written, but for the copy of a whole table. `get_mut` does not say that the other
// words stand, so the proof of an `if let` over it does not close.
fn put(t: &mut [u64], at: usize, w: u64)
    ensures { t.new ≡ set t.old at w }
{
    if at < t.len() {
        t[at] = w;
    }
}

// The kind has an entry i with a word k.
fn in_entry(kind: Kind, i: u32, k: u32) -> bool
    ensures { result ≡ in_entry kind i k }
{
    i < count(kind) && (k as usize) < stride(kind)
}

// Word k of entry i.
pub fn read(t: &[u64], kind: Kind, i: u32, k: u32) -> u64
    ensures { result ≡ word_of t.now kind i k }
{
    if in_entry(kind, i, k) {
        get(t, place(kind, i) + (k as usize))
    } else {
        0
    }
}

// How many entries have their first word in the table, so that a loop over them need not ask at each.
pub fn present(t: &[u64], kind: Kind) -> u32
    ensures { (result ≡ present_in kind (length t.now)) × Present t.now kind result }
{
    let reached = t.len().saturating_sub(base(kind)).div_ceil(stride(kind));
    reached.min(count(kind) as usize) as u32
}

// The first word of such an entry.
pub fn first_word(t: &[u64], kind: Kind, i: u32) -> u64
    requires { (i < count_of kind) × (place_of kind i < length t.now) }
    ensures { result ≡ word_of t.now kind i 0 }
{
    t[place(kind, i)]
}

pub fn write(t: &mut [u64], kind: Kind, i: u32, k: u32, w: u64)
    ensures { t.new ≡ with_word t.old kind i k w }
{
    if in_entry(kind, i, k) {
        put(t, place(kind, i) + (k as usize), w);
    }
}

// The number that is tried first.
pub fn cursor_in(t: &[u64], kind: Kind) -> u64
    ensures { result ≡ cursor_in t.now kind }
{
    get(t, cursor(kind))
}

// Going round: 0 after the last.
fn one_past(kind: Kind, i: u32) -> u32
    ensures { result ≡ one_past kind i }
{
    let last = count(kind) - 1;
    if i < last { i + 1 } else { 0 }
}

// A first word and zeros after it, over the entry's stride. Word by word, by its number, since the table may end within the
// entry: `write` tells.
fn fill(t: &mut [u64], kind: Kind, i: u32, first: u64)
    ensures { t.new ≡ with_words t.old kind i first }
{
    let mut w = first;
    for k in 0..stride(kind) as u32 {
        write(t, kind, i, k, w);
        w = 0;
    }
}

// Entry i is made, and the next one is tried one past it.
pub fn make(t: &mut [u64], kind: Kind, i: u32, first: u64)
    ensures { t.new ≡ with_entry t.old kind i first }
{
    fill(t, kind, i, first);
    put(t, cursor(kind), u64::from(one_past(kind, i)));
}

// Entry i is free again. The cursor stays: a deletion does not bring its number nearer.
pub fn clear(t: &mut [u64], kind: Kind, i: u32)
    ensures { t.new ≡ without_entry t.old kind i }
{
    fill(t, kind, i, 0);
}
