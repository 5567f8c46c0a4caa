// An event, an answer and a session hold numbers. Here is what was given, by its numbers, and what takes a refusal or a transaction
// by its number: any number, one of the page or not. The functions of the same names over enums come to these.
ghost use Rattle.std.specs.Prelude.{◌≡◌};
ghost use Rattle.state.specs.Numbers.{told, value_told};
ghost use Rattle.state.specs.States.{session, noted as noted_in, under as is_under, with_transaction, ended as ended_state, answer};

use crate::events::added;
use crate::refusals::{Refused, number_in, on, place_in};
use crate::state::{Answer, Event, Log, Session, State};
use words::sets::EMPTY;

// What was given, by its numbers: the refusal on its place, 0 if there is none, and the value, 0 beside a refusal.
pub fn told(given: Result<u32, Refused>) -> u32
    ensures { result ≡ told given }
{
    match given {
        Ok(_) => 0,
        Err(refused) => on(u8::from(refused.refusal), u8::from(refused.place)),
    }
}

pub fn value_told(given: Result<u32, Refused>) -> u32
    ensures { result ≡ value_told given }
{
    match given {
        Ok(value) => value,
        Err(_) => 0,
    }
}

// The log of a session in state s with the event added, if it is open and recording.
pub fn noted(l: Log, s: State, op: u32, refusal: u32) -> Log
    ensures { result ≡ (noted_in (session s l) op refusal).log }
{
    if s.is_open() & (s.recording == 1) {
        return added(
            l.events,
            l.count,
            Event {
                op,
                refusal: number_in(refusal),
                place: place_in(refusal),
                unused: 0,
            },
        );
    }
    l
}

// The session has this transaction.
pub fn under(s: State, transaction: u32) -> bool
    ensures { result ≡ is_under s transaction }
{
    s.transaction == transaction
}

pub fn with_transaction(s: State, transaction: u32) -> State
    ensures { result ≡ with_transaction s transaction }
{
    State { transaction, ..s }
}

// All access ends.
pub fn ended(s: State, transaction: u32) -> State
    ensures { result ≡ ended_state s transaction }
{
    with_transaction(s.with_access(EMPTY, EMPTY), transaction)
}

// A refusal on its place, a value and the session that goes back: this is the one place that builds answers.
pub fn answer_of(refusal: u32, value: u32, session: Session) -> Answer
    ensures { result ≡ answer refusal value session }
{
    Answer {
        refusal: u16::from(number_in(refusal)),
        place: u16::from(place_in(refusal)),
        value,
        session,
    }
}
