// The live entries of each schema as sets, built once, so that a set of models and an instance's model are tested by one word.
ghost use Rattle.std.specs.Prelude.{◌≡◌};
ghost use Rattle.tables.specs.Quick.Live.{no_live, with_live, of_schema, within, model_fits};

use dictionary::schema;
use words::sets::{BITS, EMPTY, has, with};

// A schema is a number here, 1 or 2, as `schema_in` and `schema` say it.
#[derive(Clone, Copy)]
pub struct Live {
    first: u64,
    second: u64,
}

impl Live {
    pub fn nobody() -> Live
        ensures { result ≡ no_live }
    {
        Live {
            first: EMPTY,
            second: EMPTY,
        }
    }

    // With entry i, which is of this schema.
    pub fn joined(self, schema: u32, i: u32) -> Live
        ensures { result ≡ with_live self schema i }
    {
        if schema == 1 {
            Live {
                first: with(self.first, i),
                ..self
            }
        } else {
            Live {
                second: with(self.second, i),
                ..self
            }
        }
    }

    pub fn of_schema(self, schema: u32) -> u64
        ensures { result ≡ of_schema self schema }
    {
        if schema == 1 { self.first } else { self.second }
    }

    // An instance lies in a live model of its type's schema (CHIP, sound tables). A model past the last is found out among the
    // strays.
    pub fn model_fits(self, ty: u32, h: u64) -> bool
        ensures { result ≡ model_fits self ty h }
    {
        has(
            self.of_schema(schema(ty)),
            (h / 0x100 % u64::from(BITS)) as u32,
        )
    }
}

// Every member of the set is in the other.
pub fn is_within(set: u64, other: u64) -> bool
    ensures { result ≡ within set other }
{
    set & other == set
}
