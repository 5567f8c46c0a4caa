// A whole tray at once (CHIP, trays): a row of orders, each answered as `chip_call` answers it, in that order.
ghost use Rattle.std.specs.Prelude.{◌≡◌, ◌<◌, ◌^◌};
ghost use Rattle.chip.specs.Tray.{trayed, tray};
ghost use Rattle.chip.specs.Quick.Turns.{taken_of, closing_of, turn_by, begun_with, turned, turn_of};
ghost use Rattle.session.specs.Runs.{chip_of};

use session::answers::{carried, finished, log_stays, unsound};
use session::call::{is_sound, serve};
pub use state::state::Order;
use state::state::{Answer, Session, answer_of};

// What it was answered, as C reads it; the session goes on to the next one.
#[repr(C)]
#[derive(Clone, Copy, Debug, PartialEq, Eq)]
pub struct Reply {
    pub refusal: u16,
    pub place: u16,
    pub value: u32,
}

// What goes from order to order: the session, the last result, and whether the tray's state was found sound. A flag and no
// Option: an unsound session goes on too, and comes back as it was handed over.
#[derive(Clone, Copy, Debug, PartialEq, Eq)]
pub struct Turn {
    pub session: Session,
    pub result: Reply,
    pub sound: bool,
}

// How many orders are taken: none, so 0, where the row of answers is shorter (`taken_of`).
fn taken(orders: usize, places: usize) -> usize
    ensures { result ≡ taken_of orders places }
{
    if orders <= places { orders } else { 0 }
}

// The tray's own answer.
fn closing(orders: usize, places: usize, x: Session) -> Answer
    ensures { result ≡ closing_of orders places x }
{
    if orders <= places {
        return answer_of(Ok(0), x);
    }
    unsound(x)
}

// What goes on from an answer: the session, and the rest of it as a result.
fn turn_by(sound: bool, r: Answer) -> Turn
    ensures { result ≡ turn_by sound r }
{
    let session = r.session;
    Turn {
        session,
        result: Reply {
            refusal: r.refusal,
            place: r.place,
            value: r.value,
        },
        sound,
    }
}

// Before the first order there is no result. The state is tested here, once for all orders.
fn begun(x: Session, working: &[u64], kept: &[u64]) -> Turn
    ensures { result ≡ begun_with x working.now kept.now }
{
    turn_by(is_sound(x, working, kept), answer_of(Ok(0), x))
}

// One order, on what the one before it left. That its last argument is a number of 32 bits is said for `chip_tray`, which reads
// it from a row. The last lines are those of `core`; why they stand here too is said there.
fn next_turn(o: Order, t: Turn, working: &mut [u64], kept: &mut [u64]) -> Turn
    ensures turn { turned result working.new kept.new ≡ turn_of o t working.old kept.old }
    ensures small { o.c < 2 ^ 32 }
{
    let x = t.session;
    if !t.sound {
        return turn_by(false, unsound(x));
    }
    let mut state = x.state;
    let given = serve(o, &mut state, working, kept);
    if log_stays(given, state) {
        return turn_by(true, carried(x, given, state));
    }
    turn_by(true, finished(o.op, x, given, state))
}

// It only moves structs: what branches stands in the functions that it calls. By index, since a proof knows nothing of what is
// written by way of an iterator over the answers.
pub fn chip_tray(
    orders: &[Order],
    answers: &mut [Reply],
    x: Session,
    working: &mut [u64],
    kept: &mut [u64],
) -> Answer
    ensures { trayed result answers.new working.new kept.new ≡ tray orders.now answers.old (chip_of x working.old kept.old) }
{
    let n = taken(orders.len(), answers.len());
    let mut t = begun(x, working, kept);
    for i in 0..n {
        t = next_turn(orders[i], t, working, kept);
        answers[i] = t.result;
    }
    closing(orders.len(), answers.len(), t.session)
}
