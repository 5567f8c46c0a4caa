// What the words of a table say.
ghost use Rattle.std.specs.Prelude.{◌≡◌, ◌&&◌};
ghost use Rattle.words.specs.Sets.{has as has_bit};
ghost use Rattle.tables.specs.View.{is_live, label_at, set_at, share_set, header_at, is_set, value_at};

use words::entries::read;
use words::fields::{VALUES, is_flagged};
use words::layout::{Kind, count};
use words::sets::has;

// A number past the last entry is not live.
pub fn is_live(t: &[u64], kind: Kind, i: u32) -> bool
    ensures { result ≡ is_live t.now kind i }
{
    read(t, kind, i, 0) != 0
}

// The label of a model or a schema instance.
pub fn label_at(t: &[u64], kind: Kind, i: u32) -> u64
    ensures { result ≡ label_at t.now kind i }
{
    read(t, kind, i, 0)
}

// The set of a schema instance.
pub fn set_at(t: &[u64], s: u32) -> u64
    ensures { result ≡ set_at t.now s }
{
    read(t, Kind::SchemaInstance, s, 1)
}

fn has_both(set: u64, m: u32, n: u32) -> bool
    ensures { result ≡ (has_bit set m && has_bit set n) }
{
    has(set, m) & has(set, n)
}

// Some set has both models (CHIP, operations: 44).
pub fn share_set(t: &[u64], m: u32, n: u32) -> bool
    ensures { result ≡ share_set t.now m n }
{
    (0..count(Kind::SchemaInstance)).any(|s| has_both(set_at(t, s), m, n))
}

// The header of an instance.
pub fn header_at(t: &[u64], i: u32) -> u64
    ensures { result ≡ header_at t.now i }
{
    read(t, Kind::Instance, i, 0)
}

// Attribute k of instance i is set.
pub fn is_set(t: &[u64], i: u32, k: u32) -> bool
    ensures { result ≡ is_set t.now i k }
{
    is_flagged(header_at(t, i), k)
}

// The value word of attribute k of instance i; 0 if an instance has no such word.
pub fn value_at(t: &[u64], i: u32, k: u32) -> u64
    ensures { result ≡ value_at t.now i k }
{
    if k < VALUES {
        read(t, Kind::Instance, i, 1 + k)
    } else {
        0
    }
}
