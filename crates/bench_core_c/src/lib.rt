// The machine without the test of soundness, for C, for the bench alone.
#![tactic(auto)]

ghost use Rattle.std.specs.Prelude.{◌≡◌};
ghost use Rattle.session.specs.Step.{outcome, core as core_of};

use state::state::{Answer, Session};

#[unsafe(no_mangle)]
pub extern "C" fn chip_core(
    op: u32,
    a: u32,
    b: u32,
    c: u32,
    x: Session,
    working: &mut [u64],
    kept: &mut [u64],
) -> Answer
    ensures { outcome result working.new kept.new ≡ core_of op a b c x working.old kept.old }
{
    bench_core::chip_core(op, a, b, c, x, working, kept)
}
