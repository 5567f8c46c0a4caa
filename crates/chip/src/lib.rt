// The machine as it is offered, a call here and a tray beside it. `chip_c` hands both on to C and Rust under the same names.
#![tactic(auto)]

ghost use Rattle.std.specs.Prelude.{◌≡◌};
ghost use Rattle.session.specs.Step.{outcome, step};

pub mod tray;

use session::answers::{carried, finished, log_stays, unsound};
use session::call::{is_sound, serve};
use state::state::{Answer, Order, Session};

// With the state lent, as in a tray: so what serves an operation is one function that both call, and no session is handed
// over to it. The last lines are those of `core`; why they stand here too is said there.
pub fn chip_call(
    op: u32,
    a: u32,
    b: u32,
    c: u32,
    x: Session,
    working: &mut [u64],
    kept: &mut [u64],
) -> Answer
    ensures { outcome result working.new kept.new ≡ step op a b c x working.old kept.old }
{
    if !is_sound(x, working, kept) {
        return unsound(x);
    }
    let mut state = x.state;
    let given = serve(Order { op, a, b, c }, &mut state, working, kept);
    if log_stays(given, state) {
        return carried(x, given, state);
    }
    finished(op, x, given, state)
}
