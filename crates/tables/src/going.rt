// The instances that go with a deletion, as a set of numbers.
ghost use Rattle.std.specs.Prelude.{◌≡◌, cond, not, ◌&&◌, eqb};
ghost use Rattle.words.specs.Sets.{insert};
ghost use Rattle.words.specs.Fields.{model_in, is_free};
ghost use Rattle.words.specs.Quick.Present.{Present};
ghost use Rattle.words.specs.declared.layout.Kind.TheVariants as kinds;
ghost use Rattle.tables.specs.Deletions.{goes_with};
ghost use Rattle.tables.specs.Quick.Going as spec;

use crate::view::header_at;
use words::entries::{first_word, present};
use words::fields::model_in;
use words::layout::Kind;
use words::sets;

// Bit j of low for instance j below 64, of high for instance 64 + j. A table that is not sound may
// refer past the last instance: beyond is the one number there that goes.
#[derive(Clone, Copy)]
pub struct Going {
    low: u64,
    high: u64,
    beyond: Option<u64>,
}

// low has a bit for each number below HALF, high for the others below ALL.
const HALF: u64 = 64;

const ALL: u64 = 128;

impl Going {
    fn nothing() -> Going
        ensures { result ≡ spec.nothing }
    {
        Going {
            low: sets::EMPTY,
            high: sets::EMPTY,
            beyond: None,
        }
    }

    fn with(self, j: u32) -> Going
        ensures { result ≡ spec.with_number self j }
    {
        let n = u64::from(j);
        if n < HALF {
            return Going {
                low: sets::with(self.low, j),
                ..self
            };
        }
        if n < ALL {
            return Going {
                high: sets::with(self.high, (n - HALF) as u32),
                ..self
            };
        }
        Going {
            beyond: Some(n),
            ..self
        }
    }

    // What goes with the deletion of instance i: it alone.
    pub fn one(i: u32) -> Going
        ensures { result ≡ spec.one_going i }
    {
        Going::nothing().with(i)
    }

    // What goes with the deletion of model m: its live instances. Both halves in one loop leave the compiler registers for them.
    pub fn those_of(t: &[u64], m: u32) -> Going
        ensures { result ≡ spec.gathered t.now m }
    {
        let all = present(t, Kind::Instance);
        let mut low = sets::EMPTY;
        let mut high = sets::EMPTY;
        for i in 0..sets::BITS {
            low = with_if(low, i, is_of_present(t, all, m, i));
            high = with_if(high, i, is_of_present(t, all, m, sets::BITS + i));
        }
        Going {
            low,
            high,
            beyond: None,
        }
    }

    // Whether a number goes. What a value word names may be any number.
    pub fn goes(self, j: u64) -> bool
        ensures { result ≡ spec.goes self j }
    {
        if j < HALF {
            return sets::has(self.low, j as u32);
        }
        if j < ALL {
            return sets::has(self.high, (j - HALF) as u32);
        }
        self.beyond == Some(j)
    }

    // Whether a number may go, by its low bits: where nothing is beyond, one of which they say no does not go.
    pub fn may_go(self, j: u64) -> bool
        ensures { result ≡ spec.may_go self j }
    {
        sets::has(self.low | self.high, (j % HALF) as u32)
    }

    // No number past the last instance goes.
    pub fn is_near(self) -> bool
        ensures { result ≡ spec.is_near self }
    {
        self.beyond.is_none()
    }
}

// An instance with this header is a live one of model m.
fn lies_in(header: u64, m: u32) -> bool
    ensures { result ≡ (not (is_free header) && eqb (model_in header) m) }
{
    (header != 0) & (model_in(header) == m)
}

// Instance i is a live one of model m.
pub fn is_of(t: &[u64], m: u32, i: u32) -> bool
    ensures { result ≡ goes_with t.now kinds.Model m i }
{
    lies_in(header_at(t, i), m)
}

// The same of an instance by how many are present: a loop over them then asks for no length. Tried by `is_of`: deleting and
// creating a model in `core` 0.98 to 1.06 of C.
fn is_of_present(t: &[u64], all: u32, m: u32, i: u32) -> bool
    requires { Present t.now kinds.Instance all }
    ensures { result ≡ goes_with t.now kinds.Model m i }
{
    i < all && lies_in(first_word(t, Kind::Instance, i), m)
}

fn with_if(set: u64, j: u32, so: bool) -> u64
    ensures { result ≡ cond so (insert set j) set }
{
    if so { sets::with(set, j) } else { set }
}
