// The answer of a call: what its session holds after it.
ghost use Rattle.std.specs.Prelude.{◌≡◌};
ghost use Rattle.state.specs.Refusals.{SY_ERR, ◌on◌};
ghost use Rattle.state.specs.Numbers.{told, value_told};
ghost use Rattle.state.specs.States.{session, answer};
ghost use Rattle.session.specs.Quick.Answers.{log_stays, log_of};

use crate::numbers;
use state::numbers::{told, value_told};
use state::refusals::{Place, Refusal, Refused};
use state::state::{Answer, Session, State, answer_of};

// SY_ERR adds no event: the session goes back as it came.
pub fn unsound(x: Session) -> Answer
    ensures { result ≡ answer (SY_ERR on 0) 0 x }
{
    answer_of(Err(Refusal::SyErr.on(Place::Nowhere)), x)
}

// The log is as it was: the operation is done, and the session is open.
pub fn log_stays(given: Result<u32, Refused>, state: State) -> bool
    ensures { result ≡ log_stays (told given) state }
{
    given.is_ok() & state.is_open()
}

// The answer where the log stays.
pub fn carried(x: Session, given: Result<u32, Refused>, state: State) -> Answer
    ensures { result ≡ answer (told given) (value_told given) (session state x.log) }
{
    answer_of(given, Session { state, log: x.log })
}

// The answer for an operation, done or refused. A refused one comes with the state as it was.
pub fn finished(op: u32, x: Session, given: Result<u32, Refused>, state: State) -> Answer
    ensures { result ≡ answer (told given) (value_told given) (session state (log_of op (told given) x state)) }
{
    numbers::finished(op, x, told(given), value_told(given), state)
}
