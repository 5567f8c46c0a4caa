// Sets of models in one word, bit m for model m. A number from 64 on is in no set. A set is a plain word and no type of its own,
// since the session that C hands over holds it so.
ghost use Rattle.std.specs.Prelude.{◌≡◌, eqb};
ghost use Rattle.words.specs.Sets.{none, has as has_bit, insert, remove, size_of};

pub const EMPTY: u64 = 0;

// A word has a place for each number below this.
pub const BITS: u32 = 64;

pub fn has(set: u64, m: u32) -> bool
    ensures { result ≡ has_bit set m }
{
    m < BITS && (set >> m) % 2 == 1
}

pub fn with(set: u64, m: u32) -> u64
    ensures { result ≡ insert set m }
{
    if m < BITS { set | (1 << m) } else { set }
}

pub fn without(set: u64, m: u32) -> u64
    ensures { result ≡ remove set m }
{
    if m < BITS { set & !(1 << m) } else { set }
}

pub fn is_empty(set: u64) -> bool
    ensures { result ≡ eqb set none }
{
    set == EMPTY
}

// How many models are in the set.
pub fn size(set: u64) -> u32
    ensures { result ≡ size_of set }
{
    set.count_ones()
}
