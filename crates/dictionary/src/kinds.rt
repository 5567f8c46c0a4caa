// The attributes of a type: how many, and of which kind each is.
ghost use Rattle.std.specs.Prelude.{◌≡◌, length};
ghost use Rattle.dictionary.specs.Dictionary.{attributes_of, attribute_of};
ghost use Rattle.dictionary.specs.Types.{number_of};

use super::answers::Attribute::{self, Reference, Whole};
use super::shapes::{attributes_in, shape};
use super::types::Type;

// How many attributes a type has, with the inherited ones.
#[tactic(auto, using(crate::proofs::Laws::Shapes::attributes_of_shape))]
pub fn attributes(t: u32) -> u32
    ensures { result ≡ length (attributes_of t) }
{
    attributes_in(shape(t))
}

// None where the type has no such attribute.
#[tactic(auto, using(crate::proofs::Laws::Attributes::no_type_attribute), unfolding(crate::specs::Dictionary::attribute_of))]
pub fn attribute(t: u32, k: u32) -> Option<Attribute>
    ensures { result ≡ attribute_of t k }
{
    Type::try_from(t)
        .ok()?
        .attributes()
        .get(k as usize)
        .copied()
}

impl Type {
    // What is inherited stands first, so a type's attribute stands in the same place in all of its subtypes.
    #[tactic(auto, unfolding(crate::specs::Dictionary::the_table))]
    fn attributes(self) -> &'static [Attribute]
        ensures { result.now ≡ attributes_of (number_of self) }
    {
        match self {
            Type::Item => &[Whole], // number
            Type::Part => &[Whole, Whole], // number, mass
            Type::Plate => &[Whole, Whole, Whole], // number, mass, thickness
            Type::Cavity => &[Whole, Whole, Reference(2)], // number, mass, the plate that it is in
            Type::Assembly => &[Whole, Reference(0)], // number, an item
            Type::Event => &[Whole], // day
            Type::ShotCount => &[Whole, Reference(1), Whole], // day, a part, shots
            Type::Repair => &[Whole, Reference(1)], // day, a part
            Type::Reading => &[Whole], // value
            Type::Wear => &[Whole, Reference(8)], // value, a reading
        }
    }
}
