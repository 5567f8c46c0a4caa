// The machine without the test of soundness, for the bench alone: what a call costs once the state is known to be sound. The
// lines of `core` stand here themselves, since a function that hands on to `core` copies the answer once more. `bench_core_c`
// hands this one on to C.
#![tactic(auto)]

ghost use Rattle.std.specs.Prelude.{◌≡◌};
ghost use Rattle.session.specs.Step.{outcome, core as core_of};

use session::answers::{carried, finished, log_stays};
use session::call::serve;
use state::state::{Answer, Order, Session};

pub fn chip_core(
    op: u32,
    a: u32,
    b: u32,
    c: u32,
    x: Session,
    working: &mut [u64],
    kept: &mut [u64],
) -> Answer
    ensures { outcome result working.new kept.new ≡ core_of op a b c x working.old kept.old }
{
    let mut state = x.state;
    let given = serve(Order { op, a, b, c }, &mut state, working, kept);
    if log_stays(given, state) {
        return carried(x, given, state);
    }
    finished(op, x, given, state)
}
