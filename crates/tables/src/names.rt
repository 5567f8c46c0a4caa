// Names of models and schema instances: whether two are the same, and the chain that a label belongs to.
ghost use Rattle.std.specs.Prelude.{◌≡◌};
ghost use Rattle.tables.specs.Quick.Names.{chain_of};
ghost use Rattle.tables.specs.Sound.{same_name};

use words::fields::{is_free, is_named, name_in, repository_in};

// Twice as many as there are models, so that labels seldom share a chain.
pub const CHAINS: usize = 128;

pub fn same_name(v: u64, w: u64) -> bool
    ensures { result ≡ same_name v w }
{
    !is_free(v) & is_named(w, repository_in(v), name_in(v))
}

// Entries with one name share a chain.
pub fn chain(label: u64) -> usize
    ensures { result ≡ chain_of label }
{
    (label % 0x1_0000_0000 * 0x85eb_ca6b / 0x200_0000 % (CHAINS as u64)) as usize
}
