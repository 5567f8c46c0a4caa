// The words of an instance: the header's strays and the four value words all at once, and then the one reference that its
// type may have.
ghost use Rattle.std.specs.Prelude.{◌≡◌, ◌<◌, slice_index};
ghost use Rattle.words.specs.Layout.{count_of};
ghost use Rattle.words.specs.declared.layout.Kind.TheVariants.{Instance};
ghost use Rattle.tables.specs.Quick.Values.{words_at, no_value, strays_in, unset_of, words_fit, target_fits, reference_fits};

use super::pointers::SECOND;
use dictionary::mark_in;
use words::fields::{VALUES, is_flagged};
use words::layout::{Kind, WORDS, count, place};
use words::sets::{BITS, has};

// The words of an instance, read once: its header and its value words.
#[derive(Clone, Copy)]
pub struct Words {
    pub header: u64,
    pub values: [u64; VALUES as usize],
}

impl Words {
    // Of instance i, read where they stand.
    pub fn at(t: &[u64; WORDS], i: u32) -> Words
        requires { i < count_of Instance }
        ensures { result ≡ words_at t.now i }
    {
        let at = place(Kind::Instance, i);
        Words {
            header: t[at],
            values: [t[at + 1], t[at + 2], t[at + 3], t[at + 4]],
        }
    }

    // Tried as `==` of the arrays: SY_ERR in the last kept value, in RW 0.46 to 0.48 of C.
    pub fn has_no_value(self) -> bool
        ensures { result ≡ no_value (slice_index self.values) }
    {
        let [v0, v1, v2, v3] = self.values;
        (v0 == 0) & (v1 == 0) & (v2 == 0) & (v3 == 0)
    }

    // What stands in the word of attribute k if that is not set.
    fn unset(self, k: u32, v: u64) -> u64
        ensures { result ≡ unset_of self.header k v }
    {
        if is_flagged(self.header, k) { 0 } else { v }
    }

    // What must not be there is gathered in one word: the strays, a value where none is set, what is above 32 bits. No type has a
    // fourth attribute.
    pub fn fit(self, shape: u64) -> bool
        ensures { result ≡ words_fit shape self.header (slice_index self.values) }
    {
        let [v0, v1, v2, v3] = self.values;
        let left = self.unset(0, v0) | self.unset(1, v1) | self.unset(2, v2) | v3;
        left | ((v0 | v1 | v2) >> 32) | strays(shape, self.header) == 0
    }

    // The reference of the instance, if its type has one and it is set: it stands second or third.
    pub fn reference_fits(self, t: &[u64; WORDS], shape: u64) -> bool
        ensures { result ≡ reference_fits t.now shape self.header (slice_index self.values) }
    {
        let mark = mark_in(shape);
        if self.header & mark == 0 {
            return true;
        }
        let [_, v1, v2, _] = self.values;
        let v = if mark == SECOND { v1 } else { v2 };
        is_target(t, shape, v)
    }
}

// What a header of this shape must not have (CHIP, sound tables): a model past the last, a flag of no attribute, anything above
// the flags. The shape's lower bits are shifted out, and its mark lies where any bit of a header is one too many.
fn strays(shape: u64, h: u64) -> u64
    ensures { result ≡ strays_in shape h }
{
    (h & shape) / 0x4000 | h / 0x10_0000
}

// A reference that is set leads to a live instance of a type that it may name (CHIP, sound tables): the low bits of its header
// are the bit of its type in a shape, and those of a free one the bit that no shape has. A header of none of the types may pass
// here: it is found out where it stands.
fn is_target(t: &[u64; WORDS], shape: u64, v: u64) -> bool
    ensures { result ≡ target_fits t.now shape v }
{
    v < u64::from(count(Kind::Instance))
        && has(
            shape,
            (t[place(Kind::Instance, v as u32)] % u64::from(BITS)) as u32,
        )
}
