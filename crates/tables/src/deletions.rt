// Deletions: what goes with one, whether an instance that stays holds it back, and what it writes.
ghost use Rattle.std.specs.Prelude.{◌≡◌, ◌<◌, length};
ghost use Rattle.words.specs.declared.layout.Kind.TheVariants as kinds;
ghost use Rattle.words.specs.Layout.{count_of, place_of};
ghost use Rattle.words.specs.Fields.{values};
ghost use Rattle.tables.specs.Quick.Going as quick;
ghost use Rattle.tables.specs.Deletions.{goes_with, holds_back, held_back, detached, swept_at, swept, ungrouped, without};

use crate::edits::{leave, unset};
use crate::going::{Going, is_of};
use crate::pointers::pointer_in;
use crate::view::{header_at, is_set, value_at};
use words::copies::is_long;
use words::entries::{clear, first_word, present};
use words::fields::model_in;
use words::layout::{Kind, count};
use words::sets::has;

// Whether instance j goes with entry n of a kind. What a value word names may be any number. Kind and number stand apart here as
// in `held_back` and `remove`, which are public and in whose theorems they do.
fn goes_with(t: &[u64], kind: Kind, n: u32, j: u64) -> bool
    ensures { result ≡ goes_with t.now kind n j }
{
    match kind {
        Kind::Model => j < u64::from(count(Kind::Instance)) && is_of(t, n, j as u32),
        Kind::SchemaInstance => false,
        Kind::Instance => j == u64::from(n),
    }
}

// An instance outside what goes refers into it, and its model has no RW access. Access is asked first: it
// needs no dictionary.
fn holds_back(t: &[u64], kind: Kind, n: u32, rw: u64, i: u32) -> bool
    requires { (i < count_of kinds.Instance) × (place_of kinds.Instance i < length t.now) }
    ensures { result ≡ holds_back t.now (goes_with t.now kind n) rw i }
{
    let header = first_word(t, Kind::Instance, i);
    if has(rw, model_in(header)) {
        return false;
    }
    let Some(k) = pointer_in(header) else {
        return false;
    };
    !goes_with(t, kind, n, u64::from(i)) && goes_with(t, kind, n, value_at(t, i, k))
}

// The deletion of entry n of a kind is held back. Tried as `any`: a deletion takes 2,733 instructions and not 2,665.
pub fn held_back(t: &[u64], kind: Kind, n: u32, rw: u64) -> bool
    ensures { result ≡ held_back t.now kind n rw }
{
    for i in 0..present(t, Kind::Instance) {
        if holds_back(t, kind, n, rw, i) {
            return true;
        }
    }
    false
}

// References to those that go are unset.
fn detach(t: &mut [u64], g: Going, i: u32)
    ensures { t.new ≡ detached t.old (quick.goes g) i values }
{
    if let Some(k) = pointer_in(header_at(t, i)) {
        if g.goes(value_at(t, i, k)) {
            unset(t, i, k);
        }
    }
}

// Attribute k of instance i may refer to one that goes.
fn may_refer(t: &[u64], g: Going, i: u32, k: u32) -> bool
    ensures { result ≡ quick.may_refer t.now g i k }
{
    g.may_go(value_at(t, i, k)) && is_set(t, i, k)
}

// Instance i may go or refer to one that goes. A reference stands second or third.
fn may_change(t: &[u64], g: Going, i: u32) -> bool
    ensures { result ≡ quick.may_change t.now g i }
{
    g.may_go(u64::from(i)) || may_refer(t, g, i, 1) || may_refer(t, g, i, 2)
}

// Instance i surely stays as it is. Most do, and are told by three words and no type. The length is asked for here, so that
// the compiler need not ask at each word.
fn is_passed(t: &[u64], g: Going, i: u32) -> bool
    ensures { result ≡ quick.is_passed t.now g i }
{
    is_long(t) && g.is_near() && !may_change(t, g, i)
}

// Instance i is freed if it goes, and else without a reference to one that goes.
fn settle(t: &mut [u64], g: Going, i: u32)
    ensures { t.new ≡ swept_at t.old (quick.goes g) i }
{
    if g.goes(u64::from(i)) {
        clear(t, Kind::Instance, i);
    } else {
        detach(t, g, i);
    }
}

fn sweep_at(t: &mut [u64], g: Going, i: u32)
    ensures { t.new ≡ swept_at t.old (quick.goes g) i }
{
    if !is_passed(t, g, i) {
        settle(t, g, i);
    }
}

// Those that go are freed and references to them unset, the last instance included.
fn sweep(t: &mut [u64], g: Going)
    ensures { t.new ≡ swept t.old (quick.goes g) (count_of kinds.Instance) }
{
    for i in 0..count(Kind::Instance) {
        sweep_at(t, g, i);
    }
}

// A model that goes is in no set any more.
fn ungroup(t: &mut [u64], m: u32)
    ensures { t.new ≡ ungrouped t.old m (count_of kinds.SchemaInstance) }
{
    for s in 0..count(Kind::SchemaInstance) {
        leave(t, s, m);
    }
}

// What goes is gathered before the first word is written.
fn remove_model(t: &mut [u64], m: u32)
    ensures { t.new ≡ without t.old kinds.Model m }
{
    let g = Going::those_of(t, m);
    sweep(t, g);
    ungroup(t, m);
    clear(t, Kind::Model, m);
}

// Entry n of a kind goes, and all that goes with it.
pub fn remove(t: &mut [u64], kind: Kind, n: u32)
    ensures { t.new ≡ without t.old kind n }
{
    match kind {
        Kind::Model => remove_model(t, n),
        Kind::SchemaInstance => clear(t, kind, n),
        Kind::Instance => sweep(t, Going::one(n)),
    }
}
