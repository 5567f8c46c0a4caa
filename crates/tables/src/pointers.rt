// The one reference of an instance.
ghost use Rattle.std.specs.Prelude.{◌≡◌};
ghost use Rattle.tables.specs.Quick.Pointers.{pointer_in};

use dictionary::{mark_in, shape};
use words::fields::type_in;

// The flag of the second attribute as a header has it. A reference stands second or third.
pub const SECOND: u64 = 0x2_0000;

// The attribute that is a reference and is set. No type has two references.
pub fn pointer_in(header: u64) -> Option<u32>
    ensures { result ≡ pointer_in header }
{
    let mark = mark_in(shape(type_in(header)));
    if header & mark == 0 {
        return None;
    }
    Some(if mark == SECOND { 1 } else { 2 })
}
