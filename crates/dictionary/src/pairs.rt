// Whether a type is another or below it, for all pairs of types, without going up from parent to parent.
ghost use Rattle.std.specs.Prelude.{◌≡◌};
ghost use Rattle.dictionary.specs.Subtype as spec;

use super::types::{TYPES, is_type};

// One hundred answers: a row for each type, with bit b set if it is type b or below it.
const SUPERTYPES: [u16; TYPES as usize] = [
    0b00_0000_0001, // item
    0b00_0000_0011, // part
    0b00_0000_0111, // plate
    0b00_0000_1011, // cavity
    0b00_0001_0001, // assembly
    0b00_0010_0000, // event
    0b00_0110_0000, // shot_count
    0b00_1010_0000, // repair
    0b01_0000_0000, // reading
    0b11_0000_0000, // wear
];

// A number is a subtype of itself, whether or not it is a type. The table has that of types too, but to tell it first is
// quicker. A row is no set of `words`, on which the dictionary does not stand.
#[tactic(auto, using(crate::proofs::Arms::below_types, crate::proofs::Laws::Subtypes::subtype_same, crate::proofs::Laws::Subtypes::no_type_below, crate::proofs::Laws::Subtypes::no_type_above))]
pub fn subtype(a: u32, b: u32) -> bool
    ensures { result ≡ spec.subtype a b }
{
    if a == b {
        return true;
    }
    if is_type(a) && is_type(b) {
        return (SUPERTYPES[a as usize] >> b) % 2 == 1;
    }
    false
}
