// The log of events: `added` puts an event in, for `numbers::noted` alone.
ghost use Rattle.std.specs.Prelude.{◌≡◌};
ghost use Rattle.state.specs.Numbers.{number_on};
ghost use Rattle.state.specs.States.{log, added as added_to, blank_log, session, noted as noted_in};

use crate::numbers;
use crate::refusals::{Refused, on};
use crate::state::{Event, Log, State};

// How many events a log holds.
pub const SLOTS: usize = 16;

// The slot of the newest event of a full log.
const LAST: usize = SLOTS - 1;

pub fn blank_log() -> Log
    ensures { result ≡ blank_log }
{
    Log {
        count: 0,
        events: [Event {
            op: 0,
            refusal: 0,
            place: 0,
            unused: 0,
        }; SLOTS],
    }
}

// With one event more behind the first n; of sixteen the oldest drops out. One array is filled either way, and moved in a
// loop, not named one by one: so the compiler keeps the events in memory and copies them in few moves. Tried by
// `copy_from_slice`: a get in `core` takes 1.45 of C and not 1.26, an order of a long tray 30 ns and not 19.
pub(crate) fn added(before: [Event; SLOTS], n: u64, e: Event) -> Log
    ensures { result ≡ added_to (log n before) e }
{
    let mut events = [e; SLOTS];
    if n < (SLOTS as u64) {
        events = before;
        events[n as usize] = e;
        return Log {
            count: n + 1,
            events,
        };
    }
    for i in 0..LAST {
        events[i] = before[i + 1];
    }
    Log { count: n, events }
}

// The log of a session in state s with the event added, if it is open and recording.
pub fn noted(l: Log, s: State, op: u32, refused: Refused) -> Log
    ensures { result ≡ (noted_in (session s l) op (number_on refused)).log }
{
    numbers::noted(
        l,
        s,
        op,
        on(u8::from(refused.refusal), u8::from(refused.place)),
    )
}
