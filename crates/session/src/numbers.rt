// What comes of a call by numbers, for who has a refusal by no more than its number: any number is taken, one of the page or not,
// and a value beside it.
ghost use Rattle.std.specs.Prelude.{◌≡◌};
ghost use Rattle.state.specs.States.{session, answer};
ghost use Rattle.session.specs.Quick.Answers.{log_stays, log_of};

use state::events::blank_log;
use state::numbers::{answer_of, noted};
use state::state::{Answer, Log, Session, State};

// The log is as it was: the operation is done, and the session is open.
pub fn log_stays(refusal: u32, state: State) -> bool
    ensures { result ≡ log_stays refusal state }
{
    (refusal == 0) & state.is_open()
}

// A refusal may add an event, and a closed session has none.
fn log_after(op: u32, refusal: u32, x: Session, s: State) -> Log
    ensures { result ≡ log_of op refusal x s }
{
    if refusal != 0 {
        return noted(x.log, x.state, op, refusal);
    }
    if s.is_open() { x.log } else { blank_log() }
}

// The answer for an operation, done or refused, which is built once.
pub fn finished(op: u32, x: Session, refusal: u32, value: u32, state: State) -> Answer
    ensures { result ≡ answer refusal value (session state (log_of op refusal x state)) }
{
    answer_of(
        refusal,
        value,
        Session {
            state,
            log: log_after(op, refusal, x, state),
        },
    )
}
