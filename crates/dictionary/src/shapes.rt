// The shape of a type in one word, so that the test of an instance asks the dictionary once. Each part lies where it is asked
// for, so that none is masked there: bit 1 + u, as a header has its type, for a type u that the reference may name, from bit 12
// on how many attributes there are, and from bit 14 on what a header must not have where it has that (a model past the last,
// which no type allows, and a flag of no attribute). On top stands the flag of the reference, 2^20 times what a header has for
// it.
ghost use Rattle.std.specs.Prelude.{◌≡◌, unwrap_or};
ghost use Rattle.dictionary.specs.Quick.Shapes.{flag_of, packed_of, shape_of, attributes_in, mark_in};
ghost use Rattle.dictionary.specs.Quick.References.{no_reference};
ghost use Rattle.dictionary.specs.Types.{number_of};

use super::types::Type;

// An instance has room for no more.
const ATTRIBUTES: u32 = 4;

// The flag of attribute k as a mask: 0, the empty one, for a number that no attribute has (`flag_of`).
fn flag(k: u32) -> u64
    ensures { result ≡ flag_of k }
{
    if k < ATTRIBUTES { 1 << k } else { 0 }
}

// There is room for three attributes and ten types; no type has more.
#[tactic(auto, using(crate::proofs::Laws::Shapes::flag_small))]
fn packed(attributes: u32, reference: Option<u32>, targets: u32) -> u64
    ensures { result ≡ packed_of attributes (unwrap_or reference no_reference) targets }
{
    2 * u64::from(targets % 0x400)
        + 0x1000 * u64::from(attributes % 4)
        + 0xc000
        + 0x1_0000 * (16 - flag(attributes))
        + 0x10_0000_0000 * reference.map_or(0, flag)
}

// A number that is no type has no attribute.
#[tactic(auto, using(crate::proofs::Laws::Shapes::no_type_shape))]
pub fn shape(t: u32) -> u64
    ensures { result ≡ shape_of t }
{
    Type::try_from(t).map_or(packed(0, None, 0), Type::shape)
}

impl Type {
    // The table, a row for each type.
    #[tactic(auto, unfolding(crate::specs::Quick::Shapes::the_shapes))]
    fn shape(self) -> u64
        ensures { result ≡ shape_of (number_of self) }
    {
        match self {
            Type::Item => packed(1, None, 0),
            Type::Part => packed(2, None, 0),
            Type::Plate => packed(3, None, 0),
            Type::Cavity => packed(3, Some(2), 0x004),
            Type::Assembly => packed(2, Some(1), 0x01f),
            Type::Event => packed(1, None, 0),
            Type::ShotCount => packed(3, Some(1), 0x00e),
            Type::Repair => packed(2, Some(1), 0x00e),
            Type::Reading => packed(1, None, 0),
            Type::Wear => packed(2, Some(1), 0x300),
        }
    }
}

// How many attributes.
pub fn attributes_in(shape: u64) -> u32
    ensures { result ≡ attributes_in shape }
{
    (shape / 0x1000 % 4) as u32
}

// The flag of the reference as a header has it, as a mask: 0, the empty one, if there is none (`mark_in`).
pub fn mark_in(shape: u64) -> u64
    ensures { result ≡ mark_in shape }
{
    shape / 0x10_0000
}
