// Which numbers are types, their names and their schemas.
ghost use Rattle.std.specs.Prelude.{◌≡◌, ◌≤◌, length};
ghost use Rattle.dictionary.specs.Dictionary.{is_type, padded, name_of, schema_of};
ghost use Rattle.dictionary.specs.Types.{TypeAt, number_of};

use super::answers::Name;

// How many types there are: 0 to 9.
pub const TYPES: u32 = 10;

// The page's types, in the order of their numbers.
#[derive(Clone, Copy, Debug, PartialEq, Eq)]
pub enum Type {
    Item,
    Part,
    Plate,
    Cavity,
    Assembly,
    Event,
    ShotCount,
    Repair,
    Reading,
    Wear,
}

// A number that is no type.
#[derive(Clone, Copy, Debug, PartialEq, Eq)]
pub struct NoType;

impl TryFrom<u32> for Type {
    type Error = NoType;

    ghost try_from_gives = { TypeAt };

    #[tactic(auto, unfolding(crate::specs::Dictionary::the_table))]
    fn try_from(t: u32) -> Result<Self, NoType> {
        match t {
            0 => Ok(Type::Item),
            1 => Ok(Type::Part),
            2 => Ok(Type::Plate),
            3 => Ok(Type::Cavity),
            4 => Ok(Type::Assembly),
            5 => Ok(Type::Event),
            6 => Ok(Type::ShotCount),
            7 => Ok(Type::Repair),
            8 => Ok(Type::Reading),
            9 => Ok(Type::Wear),
            _ => Err(NoType),
        }
    }
}

impl From<Type> for u32 {
    ghost from_gives = { λ ty t. t ≡ number_of ty };

    fn from(ty: Type) -> u32 {
        ty as u32
    }
}

#[tactic(auto, unfolding(crate::specs::Dictionary::the_table))]
pub fn is_type(t: u32) -> bool
    ensures { result ≡ is_type t }
{
    t < TYPES
}

#[tactic(auto, using(crate::specs::Laws::Types::no_type_name))]
pub fn name(t: u32) -> Name
    ensures { result ≡ name_of t }
{
    Type::try_from(t).map_or(named(""), Type::name)
}

// A text of ten bytes at most.
fn named(text: &str) -> Name
    requires { length text.now ≤ 10 }
    ensures { result ≡ padded text.now }
{
    let mut bytes = [0; 10];
    bytes[..text.len()].copy_from_slice(text.as_bytes());
    Name {
        len: text.len() as u32,
        bytes,
    }
}

// The last two types are of schema 2, the others of schema 1; a number that is no type is of schema 0 and has no letters in its
// name: so `schema_of` and `name_of` have it, with their theorems.
#[tactic(auto, using(crate::specs::Laws::Types::no_type_schema))]
pub fn schema(t: u32) -> u32
    ensures { result ≡ schema_of t }
{
    Type::try_from(t).map_or(0, Type::schema)
}

impl Type {
    fn name(self) -> Name
        ensures { result ≡ name_of (number_of self) }
    {
        match self {
            Type::Item => named("item"),
            Type::Part => named("part"),
            Type::Plate => named("plate"),
            Type::Cavity => named("cavity"),
            Type::Assembly => named("assembly"),
            Type::Event => named("event"),
            Type::ShotCount => named("shot_count"),
            Type::Repair => named("repair"),
            Type::Reading => named("reading"),
            Type::Wear => named("wear"),
        }
    }

    #[tactic(auto, unfolding(crate::specs::Dictionary::the_table))]
    fn schema(self) -> u32
        ensures { result ≡ schema_of (number_of self) }
    {
        match self {
            Type::Item
            | Type::Part
            | Type::Plate
            | Type::Cavity
            | Type::Assembly
            | Type::Event
            | Type::ShotCount
            | Type::Repair => 1,
            Type::Reading | Type::Wear => 2,
        }
    }
}
