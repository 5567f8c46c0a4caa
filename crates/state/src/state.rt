// A session, as a caller holds it between calls: integers alone, as C hands them over, every bit pattern a value, and the test of
// soundness judges each.
ghost use Rattle.std.specs.Prelude.{◌≡◌};
ghost use Rattle.state.specs.Numbers.{transaction_number, told, value_told};
ghost use Rattle.state.specs.States.{is_open, under as is_under, with_recording, with_transaction, with_repositories, with_access, woken as woken_in, ended as ended_state, closed_state, opened_state, answer};

use crate::events::SLOTS;
use crate::numbers;
use crate::refusals::Refused;
use words::sets::{EMPTY, has, with};

// The transaction of a session. What a session holds of it is its number.
#[derive(Clone, Copy, Debug, PartialEq, Eq)]
pub enum Transaction {
    Absent = 0,
    ReadOnly = 1,
    ReadWrite = 2,
    Aborted = 3,
}

impl From<Transaction> for u32 {
    ghost from_gives = { λ transaction n. n ≡ transaction_number transaction };

    fn from(transaction: Transaction) -> u32 {
        transaction as u32
    }
}

// An operation: its number and its arguments.
#[repr(C)]
#[derive(Clone, Copy, Debug, PartialEq, Eq)]
pub struct Order {
    pub op: u32,
    pub a: u32,
    pub b: u32,
    pub c: u32,
}

// What the operations see and change. The sets have bit m for model m, bit r for repository r.
#[repr(C)]
#[derive(Clone, Copy, Debug, PartialEq, Eq)]
pub struct State {
    pub repositories: u64,
    pub ro: u64,
    pub rw: u64,
    pub opened: u32,
    pub recording: u32,
    pub transaction: u32,
}

// A refusal, its place and the operation that it was given to, by numbers, as C reads them. The last two bytes carry nothing: they
// have a name because the compiler copies structs without a hole in few moves, and others field by field.
#[repr(C)]
#[derive(Clone, Copy, Debug, PartialEq, Eq)]
pub struct Event {
    pub op: u32,
    pub refusal: u8,
    pub place: u8,
    pub unused: u16,
}

// The events that are recorded, oldest first: the first `count` slots, as C hands them over.
#[repr(C)]
#[derive(Clone, Copy, Debug, PartialEq, Eq)]
pub struct Log {
    pub events: [Event; SLOTS],
    pub count: u64,
}

// The log stands first, since a session is copied quickest so.
#[repr(C)]
#[derive(Clone, Copy, Debug, PartialEq, Eq)]
pub struct Session {
    pub log: Log,
    pub state: State,
}

// What C gets back: a refusal on its place, both 0 for done, the value, and the session.
#[repr(C)]
#[derive(Clone, Copy, Debug, PartialEq, Eq)]
pub struct Answer {
    pub refusal: u16,
    pub place: u16,
    pub value: u32,
    pub session: Session,
}

impl State {
    pub fn is_open(self) -> bool
        ensures { result ≡ is_open self }
    {
        self.opened == 1
    }

    // The session has this transaction.
    pub fn under(self, transaction: Transaction) -> bool
        ensures { result ≡ is_under self (transaction_number transaction) }
    {
        numbers::under(self, u32::from(transaction))
    }

    // 0 or 1: a session holds the number, and so has the definition.
    pub fn with_recording(self, on: u32) -> State
        ensures { result ≡ with_recording self on }
    {
        State {
            recording: on,
            ..self
        }
    }

    pub fn with_transaction(self, transaction: Transaction) -> State
        ensures { result ≡ with_transaction self (transaction_number transaction) }
    {
        numbers::with_transaction(self, u32::from(transaction))
    }

    pub fn with_repositories(self, repositories: u64) -> State
        ensures { result ≡ with_repositories self repositories }
    {
        State {
            repositories,
            ..self
        }
    }

    pub fn with_access(self, ro: u64, rw: u64) -> State
        ensures { result ≡ with_access self ro rw }
    {
        State { ro, rw, ..self }
    }

    // Model m has read-only access unless it has access that writes: one without access is woken.
    pub fn woken(self, m: u32) -> State
        ensures { result ≡ woken_in self m }
    {
        if has(self.rw, m) {
            return self;
        }
        self.with_access(with(self.ro, m), self.rw)
    }

    // All access ends.
    pub fn ended(self, transaction: Transaction) -> State
        ensures { result ≡ ended_state self (transaction_number transaction) }
    {
        numbers::ended(self, u32::from(transaction))
    }
}

pub fn closed_state() -> State
    ensures { result ≡ closed_state }
{
    State {
        opened: 0,
        recording: 0,
        transaction: u32::from(Transaction::Absent),
        repositories: EMPTY,
        ro: EMPTY,
        rw: EMPTY,
    }
}

pub fn opened_state() -> State
    ensures { result ≡ opened_state }
{
    State {
        opened: 1,
        recording: 1,
        ..closed_state()
    }
}

// The value or the refusal that was given, and the session that goes back.
pub fn answer_of(given: Result<u32, Refused>, session: Session) -> Answer
    ensures { result ≡ answer (told given) (value_told given) session }
{
    numbers::answer_of(numbers::told(given), numbers::value_told(given), session)
}
