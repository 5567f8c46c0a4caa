// The words in use of two tables: whether they agree, and a copy from one to the other.
ghost use Rattle.std.specs.Prelude.{◌≡◌};
ghost use Rattle.words.specs.Copies.{is_long, agree as agreeing, copied};

use crate::layout::WORDS;

pub fn is_long(t: &[u64]) -> bool
    ensures { result ≡ is_long t.now }
{
    WORDS <= t.len()
}

// No difference ends the fold: so many words without a branch are quicker. Tried as `a[..WORDS] == b[..WORDS]`: get in RO 0.59
// to 0.66 of C.
pub fn agree(a: &[u64], b: &[u64]) -> bool
    ensures { result ≡ agreeing a.now b.now }
{
    if a.len() < WORDS || b.len() < WORDS {
        return false;
    }
    let pairs = a[..WORDS].iter().zip(&b[..WORDS]);
    pairs.fold(0, |differing, (x, y)| differing | (x ^ y)) == 0
}

pub fn copy(from: &[u64], to: &mut [u64])
    ensures { to.new ≡ copied from.now to.old }
{
    let n = WORDS.min(from.len()).min(to.len());
    to[..n].copy_from_slice(&from[..n]);
}
