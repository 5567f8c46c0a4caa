// What a type asks of an instance, by its tag: the low four bits of a header, which are its type and 1. Made for the test of an
// instance, which asks `shape` still (docs/PORT.md). Every tag has an arm, those of no type too, and the compiler makes tables of
// them that are read with no test before: each answer is worked out from its type's shape when the library is compiled. What a
// tag of no type is told here is of no weight, since no model is there for it.
ghost use Rattle.std.specs.Prelude.{◌≡◌, ◌-◌, min};
ghost use Rattle.dictionary.specs.Quick.Tags.{bars_of, names_of};

use super::shapes::{mark_in, shape};

pub const TAGS: usize = 16;

// What a header of this type must not have: a type above the tags, a model past the last, a flag of no attribute, anything above
// the flags.
#[tactic(auto, unfolding(crate::specs::Quick::Tags::bars_of))]
fn bars(t: u32) -> u64
    ensures { result ≡ bars_of t }
{
    0xffff_ffff_fff0_00f0 + shape(t) / 0x4000 % 64 * 0x4000
}

// What the reference of this type may name, a bit for each tag, and its flag as a header has it.
#[tactic(auto, unfolding(crate::specs::Quick::Tags::names_of))]
fn names(t: u32) -> u64
    ensures { result ≡ names_of t }
{
    let shape = shape(t);
    shape % 0x1000 + mark_in(shape)
}

// What is said of the type of a tag. With 0 and 1 in one arm, or the type worked out from the tag, there is a test before the
// table.
fn by_tag<F: FnOnce(u32) -> u64>(tag: u64, of_type: F) -> u64
    requires { F.IsAlwaysCallable of_type }
    ensures { F.post of_type (min (tag - 1) 14) result }
{
    match tag {
        0 => of_type(0),
        1 => of_type(0),
        2 => of_type(1),
        3 => of_type(2),
        4 => of_type(3),
        5 => of_type(4),
        6 => of_type(5),
        7 => of_type(6),
        8 => of_type(7),
        9 => of_type(8),
        10 => of_type(9),
        11 => of_type(10),
        12 => of_type(11),
        13 => of_type(12),
        14 => of_type(13),
        _ => of_type(14),
    }
}

#[tactic(auto, using(crate::proofs::Laws::Shapes::capped_shape), unfolding(crate::specs::Quick::Tags::bars_of))]
pub fn barred(tag: u64) -> u64
    ensures { result ≡ bars_of (tag - 1) }
{
    by_tag(tag, bars)
}

#[tactic(auto, using(crate::proofs::Laws::Shapes::capped_shape), unfolding(crate::specs::Quick::Tags::names_of))]
pub fn named(tag: u64) -> u64
    ensures { result ≡ names_of (tag - 1) }
{
    by_tag(tag, names)
}
