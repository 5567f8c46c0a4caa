// One call. `call` judges whatever comes in; `core` is the machine without that judgement, for a caller whose state is proved
// sound. State and tables go apart everywhere, as C hands them over, and of the three each operation is lent for writing what it
// changes.
ghost use Rattle.std.specs.Prelude.{◌≡◌};
ghost use Rattle.checks.specs.Operations.{operation_of};
ghost use Rattle.session.specs.Rows.{performed};
ghost use Rattle.state.specs.Quick.Lent.{state_of};
ghost use Rattle.session.specs.Quick.Served.{serving, served, served_by, lending, lent_by};
ghost use Rattle.session.specs.Sound.{sound as sound_state};
ghost use Rattle.session.specs.Step.{outcome, core as core_of, step};

use crate::answers::{carried, finished, log_stays, unsound};
use crate::perform::own;
use crate::sound::sound_session;
use checks::gate::gate;
use checks::operations::operation_of;
use state::lent::{MARKS, SETS, marks_of, sets_of, state_of};
use state::numbers::{told, value_told};
use state::refusals::Refused;
use state::state::{Answer, Order, Session, State, Transaction};
use tables::sound::sound_tables;

// An operation on a sound state: refused at the gate, refused by its own checks, or done, and then its value.
pub fn serve(
    order: Order,
    state: &mut State,
    working: &mut [u64],
    kept: &mut [u64],
) -> Result<u32, Refused>
    ensures { serving (served result state.new) working.new kept.new
        ≡ served_by (performed (operation_of order.op) order.a order.b order.c state.old working.old) working.old kept.old }
{
    let op = operation_of(order.op);
    gate(op, *state)?;
    own(op, order, state, working, kept)
}

// What an operation answers, by numbers, where its state was lent as two rows of them. (A tray's `Reply` has the place apart.)
#[derive(Clone, Copy, Debug, PartialEq, Eq)]
pub struct Reply {
    pub refusal: u32,
    pub value: u32,
}

// The same with the state lent as two rows of numbers, for who holds it so.
pub fn serve_lent(
    op: u32,
    a: u32,
    b: u32,
    c: u32,
    working: &mut [u64],
    kept: &mut [u64],
    sets: &mut [u64; SETS],
    marks: &mut [u32; MARKS],
) -> Reply
    ensures { lending result sets.new marks.new working.new kept.new ≡ lent_by (performed (operation_of op) a b c (state_of sets.old marks.old) working.old) working.old kept.old }
{
    let mut state = state_of(*sets, *marks);
    let given = serve(Order { op, a, b, c }, &mut state, working, kept);
    *sets = sets_of(state);
    *marks = marks_of(state);
    Reply {
        refusal: told(given),
        value: value_told(given),
    }
}

// Where the log stays, as it nearly always does, the answer is made at once: so the compiler copies the events once less. These
// lines stand in `chip` and in the bench's face too. Tried as one function: an order of a long tray takes 36 ns and not 19; and in
// place at each call, a put in `core` takes 1.55 of C and not 1.42. The four numbers are named one by one, as C hands them over.
pub fn core(
    op: u32,
    a: u32,
    b: u32,
    c: u32,
    x: Session,
    working: &mut [u64],
    kept: &mut [u64],
) -> Answer
    ensures { outcome result working.new kept.new ≡ core_of op a b c x working.old kept.old }
{
    let mut state = x.state;
    let given = serve(Order { op, a, b, c }, &mut state, working, kept);
    if log_stays(given, state) {
        return carried(x, given, state);
    }
    finished(op, x, given, state)
}

pub fn is_sound(x: Session, working: &[u64], kept: &[u64]) -> bool
    ensures { result ≡ sound_state x working.now kept.now }
{
    let state = x.state;
    sound_tables(state.under(Transaction::ReadWrite), working, kept) && sound_session(x, working)
}

pub fn call(
    op: u32,
    a: u32,
    b: u32,
    c: u32,
    x: Session,
    working: &mut [u64],
    kept: &mut [u64],
) -> Answer
    ensures { outcome result working.new kept.new ≡ step op a b c x working.old kept.old }
{
    if !is_sound(x, working, kept) {
        return unsound(x);
    }
    core(op, a, b, c, x, working, kept)
}
