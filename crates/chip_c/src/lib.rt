// The face for C and Rust, a call here and a tray beside it: include/chip.h declares both. Numbers pass as themselves, the
// session and the answer by value, a table or a row as a pointer and a length. What either does stands in `chip`: a library
// that Rattle crates cite exports nothing, and this one exports nothing of its own.
#![tactic(auto)]

ghost use Rattle.std.specs.Prelude.{◌≡◌};
ghost use Rattle.chip.specs.Tray.{trayed, tray};
ghost use Rattle.session.specs.Runs.{chip_of};
ghost use Rattle.session.specs.Step.{outcome, step};

use chip::tray::Reply;
use state::state::{Answer, Order, Session};

#[unsafe(no_mangle)]
pub extern "C" fn chip_call(
    op: u32,
    a: u32,
    b: u32,
    c: u32,
    x: Session,
    working: &mut [u64],
    kept: &mut [u64],
) -> Answer
    ensures { outcome result working.new kept.new ≡ step op a b c x working.old kept.old }
{
    chip::chip_call(op, a, b, c, x, working, kept)
}

#[unsafe(no_mangle)]
pub extern "C" fn chip_tray(
    orders: &[Order],
    answers: &mut [Reply],
    x: Session,
    working: &mut [u64],
    kept: &mut [u64],
) -> Answer
    ensures { trayed result answers.new working.new kept.new ≡ tray orders.now answers.old (chip_of x working.old kept.old) }
{
    chip::tray::chip_tray(orders, answers, x, working, kept)
}
