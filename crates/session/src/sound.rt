// Whether a session is sound, beside the working table that its access sets speak of.
ghost use Rattle.std.specs.Prelude.{◌≡◌, true, cond, ◌≤◌, length};
ghost use Rattle.words.specs.declared.layout.Kind.TheVariants.{Model};
ghost use Rattle.words.specs.Layout.{words};
ghost use Rattle.words.specs.Entries.{formed, all_formed};
ghost use Rattle.words.specs.Sets.{insert};
ghost use Rattle.state.specs.States.{slots};
ghost use Rattle.session.specs.Sound.{sound_event, is_blank, sound_slots, sound_log, sound_access, sound_transaction, sound_open, sound_session};
ghost use Rattle.session.specs.Quick.Access.{is_seen, in_open};

use state::events::SLOTS;
use state::refusals::{Place, Refusal};
use state::state::{Event, Log, Session, State, Transaction};
use words::fields::is_free;
use words::sets::{BITS, EMPTY, with};

fn sound_event(e: Event) -> bool
    ensures { result ≡ sound_event e }
{
    (u8::from(Refusal::FnNavl) <= e.refusal)
        & (e.refusal <= u8::from(Refusal::NoRoom))
        & (e.place <= u8::from(Place::Remaining))
}

fn is_blank(e: Event) -> bool
    ensures { result ≡ is_blank e }
{
    (e.op == 0) & (e.refusal == 0) & (e.place == 0)
}

// The first `count` slots hold events, the others are blank. Tried as two chains of `all`: open, close session on a fresh chip
// 0.71 to 0.74 of C.
fn sound_slots(count: u64, events: [Event; SLOTS]) -> bool
    requires { count ≤ slots }
    ensures { result ≡ sound_slots count events }
{
    let n = count as usize;
    for e in &events[..n] {
        if !sound_event(*e) {
            return false;
        }
    }
    for e in &events[n..] {
        if !is_blank(*e) {
            return false;
        }
    }
    true
}

#[tactic(auto, unfolding(crate::specs::Sound::sound_log))]
fn sound_log(l: Log) -> bool
    ensures { result ≡ sound_log l }
{
    (l.count <= (SLOTS as u64)) && sound_slots(l.count, l.events)
}

// The label of a live model whose repository is open. The label is known to be sound, so its repository needs no test. Tried
// as `has`, which tests it: get in RO 0.58 to 0.61 of C.
fn is_seen(repositories: u64, label: u64) -> bool
    requires { formed Model label ≡ true }
    ensures { result ≡ is_seen repositories label }
{
    !is_free(label) & ((repositories >> (label / 0x1_0000_0000 % 64)) % 2 == 1)
}

fn with_seen(set: u64, m: u32, repositories: u64, label: u64) -> u64
    requires { formed Model label ≡ true }
    ensures { result ≡ cond (is_seen repositories label) (insert set m) set }
{
    if is_seen(repositories, label) {
        with(set, m)
    } else {
        set
    }
}

// A table that is long enough and whose models have sound labels: the tables are tested before the session. Tried as an array of
// its words, whose length is then tested again: get in RO 0.58 to 0.65 of C.
#[derive(Clone, Copy)]
struct Tested<'a> {
    table: &'a [u64],
    ghost long: { words ≤ length table.now },
    ghost sound: { all_formed table.now Model ≡ true },
}

impl Tested<'_> {
    // The live models of open repositories, built once, so that an access set is tested by one word.
    fn in_open(self, repositories: u64) -> u64
        ensures { result ≡ in_open self.entry.table.now repositories }
    {
        let mut set = EMPTY;
        for (m, label) in self.table[..BITS as usize].iter().enumerate() {
            set = with_seen(set, m as u32, repositories, *label);
        }
        set
    }
}

// The access sets share no model, and each lies within the models that may be seen, as `is_within` of `tables` says it of sets of
// its own. Where there is no access, as on a fresh
// chip, there is nothing to look for.
#[tactic(auto, using(crate::specs::Laws::Sound::no_access_lem, crate::specs::Laws::Sound::access_by_sets))]
fn sound_access(s: State, tested: Tested) -> bool
    ensures { result ≡ sound_access tested.entry.table.now s }
{
    if (s.ro == EMPTY) & (s.rw == EMPTY) {
        return true;
    }
    let open = tested.in_open(s.repositories);
    (s.ro & s.rw == EMPTY) & (s.ro & open == s.ro) & (s.rw & open == s.rw)
}

#[tactic(auto, unfolding(crate::specs::Sound::sound_transaction))]
fn sound_transaction(s: State) -> bool
    ensures { result ≡ sound_transaction s }
{
    (s.transaction <= u32::from(Transaction::Aborted))
        & (s.under(Transaction::ReadWrite) | (s.rw == EMPTY))
        & (s.under(Transaction::ReadWrite) | s.under(Transaction::ReadOnly) | (s.ro == EMPTY))
}

// Everything in a closed session is blank.
#[tactic(auto, unfolding(crate::specs::Sound::sound_open))]
fn sound_open(x: Session) -> bool
    ensures { result ≡ sound_open x }
{
    let s = x.state;
    let log = x.log;
    if s.is_open() {
        return true;
    }
    (s.opened == 0)
        & (s.recording == 0)
        & (s.under(Transaction::Absent))
        & (s.repositories == EMPTY)
        & (log.count == 0)
}

// What is asked of the table here is what `Tested` holds.
#[tactic(auto, unfolding(crate::specs::Sound::sound_session))]
pub fn sound_session(x: Session, w: &[u64]) -> bool
    requires { (words ≤ length w.now) × (all_formed w.now Model ≡ true) }
    ensures { result ≡ sound_session w.now x }
{
    let s = x.state;
    let log = x.log;
    sound_open(x)
        & (s.recording <= 1)
        & (s.repositories < 0x100)
        & sound_transaction(s)
        & sound_access(s, Tested { table: w })
        & sound_log(log)
}
