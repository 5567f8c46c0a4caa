// What is written into one entry of a table. Writing past the last entry, or past the last attribute, changes nothing.
ghost use Rattle.std.specs.Prelude.{◌≡◌};
ghost use Rattle.tables.specs.Edits.{with_member, without_member, with_value, without_value};

use crate::view::{header_at, set_at};
use words::entries::write;
use words::fields::{VALUES, with_flag, without_flag};
use words::layout::Kind;
use words::sets;

// Each two differ in one call: a function of both that takes it as a closure is no shorter.
pub fn join(t: &mut [u64], s: u32, m: u32)
    ensures { t.new ≡ with_member t.old s m }
{
    let set = sets::with(set_at(t, s), m);
    write(t, Kind::SchemaInstance, s, 1, set);
}

pub fn leave(t: &mut [u64], s: u32, m: u32)
    ensures { t.new ≡ without_member t.old s m }
{
    let set = sets::without(set_at(t, s), m);
    write(t, Kind::SchemaInstance, s, 1, set);
}

pub fn put(t: &mut [u64], i: u32, k: u32, v: u32)
    ensures { t.new ≡ with_value t.old i k v }
{
    if k < VALUES {
        write(t, Kind::Instance, i, 1 + k, u64::from(v));
        let header = with_flag(header_at(t, i), k);
        write(t, Kind::Instance, i, 0, header);
    }
}

pub fn unset(t: &mut [u64], i: u32, k: u32)
    ensures { t.new ≡ without_value t.old i k }
{
    if k < VALUES {
        write(t, Kind::Instance, i, 1 + k, 0);
        let header = without_flag(header_at(t, i), k);
        write(t, Kind::Instance, i, 0, header);
    }
}
