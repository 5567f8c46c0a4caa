// An order from the bytes that it begins.
ghost use Rattle.std.specs.Prelude.{◌≡◌, ◌≤◌, ◌+◌};
ghost use Rattle.records.specs.Records.{record_of, long_at};

use state::state::Order;

// The bytes of a record.
pub const SIZE: usize = 16;

// Four bytes, the lowest first.
fn long(head: &[u8; SIZE], at: usize) -> u32
    requires { at + 4 ≤ 16 }
    ensures { result ≡ long_at head.now at }
{
    u32::from_le_bytes([head[at], head[at + 1], head[at + 2], head[at + 3]])
}

// A record is `SD`, the operation in two bytes and three arguments in four each. None if it is cut or its mark is wrong.
pub fn decode(part: &[u8]) -> Option<Order>
    ensures { result ≡ record_of part.now }
{
    let (head, _) = part.split_first_chunk::<SIZE>()?;
    if head[0] != b'S' || head[1] != b'D' {
        return None;
    }
    Some(Order {
        op: u16::from_le_bytes([head[2], head[3]]).into(),
        a: long(head, 4),
        b: long(head, 8),
        c: long(head, 12),
    })
}
