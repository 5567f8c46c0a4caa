// From a type to its parent.
ghost use Rattle.std.specs.Prelude.{◌≡◌, option_map};
ghost use Rattle.dictionary.specs.Dictionary.{parent_of};
ghost use Rattle.dictionary.specs.Subtype as spec;
ghost use Rattle.dictionary.specs.Types.{number_of};

use super::types::Type;

// None for a root, and for a number that is no type.
#[tactic(auto, using(crate::specs::Laws::Types::no_type_parent))]
pub fn parent(t: u32) -> Option<u32>
    ensures { result ≡ parent_of t }
{
    Type::try_from(t).ok()?.parent().map(u32::from)
}

impl Type {
    #[tactic(auto, unfolding(crate::specs::Dictionary::the_table))]
    fn parent(self) -> Option<Type>
        ensures { option_map number_of result ≡ parent_of (number_of self) }
    {
        match self {
            Type::Part | Type::Assembly => Some(Type::Item),
            Type::Plate | Type::Cavity => Some(Type::Part),
            Type::ShotCount => Some(Type::Event),
            Type::Repair => Some(Type::Event),
            Type::Wear => Some(Type::Reading),
            Type::Item | Type::Event | Type::Reading => None,
        }
    }
}

// The same type, or one whose parent is a subtype (CHIP, dictionary). It ends because a parent's number is lower. No call
// asks it, since each step takes stack: `pairs::subtype` gives the same.
pub fn subtype(a: u32, b: u32) -> bool
    ensures { result ≡ spec.subtype a b }
{
    if a == b {
        return true;
    }
    // With `is_some_and` the closure would be of the cycle of calls, and have to say itself what it gives.
    match parent(a) {
        Some(p) => subtype(p, b),
        None => false,
    }
}
