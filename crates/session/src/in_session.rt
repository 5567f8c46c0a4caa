// The operations that ask for an open session and no more.
ghost use Rattle.std.specs.Prelude.{◌≡◌, [], ◌∷◌, ◌++◌, List, ℕ};
ghost use Rattle.checks.specs.Quick.Asked.{Asks};
ghost use Rattle.state.specs.Refusals.{TR_EAB, ◌on◌};
ghost use Rattle.state.specs.Numbers.{number_of, transaction_number};
ghost use Rattle.checks.specs.Checks.{◌gives◌};
ghost use Rattle.state.specs.States as states;
ghost use Rattle.session.specs.Effects.{does, Stay};
ghost use Rattle.session.specs.Rows.{◌then◌, untransacted as untransacted_of, settling as settling_of, session_row};
ghost use Rattle.session.specs.Quick.Rows.{row_done};
ghost use Rattle.session.specs.Quick.Served.{serving, served, served_by};
ghost use Rattle.session.specs.Quick.Follows.{Follows};

use crate::effects::{commit_writing, drop_writing};
use checks::conditions::{no_repository, no_type, not_opened, types_differ};
use checks::operations::InSession;
use checks::shared::refuse_if;
use state::refusals::{Place, Refusal, Refused};
use state::state::{Order, State, Transaction, closed_state};
use words::copies::copy;
use words::sets::{EMPTY, has, with, without};

// What was not committed is dropped.
fn close_session(s: &mut State, working: &mut [u64], kept: &[u64]) -> Result<u32, Refused>
    ensures { serving (served result s.new) working.new kept.now ≡ served_by (row_done s.old (session_row InSession.CloseSession 0 0 s.old)) working.old kept.now }
{
    drop_writing(*s, working, kept);
    *s = closed_state();
    Ok(0)
}

fn open_repository(a: u32, s: &mut State) -> Result<u32, Refused>
    ensures { (w : List ℕ) → Follows (λ s w. session_row InSession.OpenRepository a 0 s) s.old w result s.new w }
{
    refuse_if(no_repository(a), Refusal::RpNexs, Place::First)?;
    refuse_if(has(s.repositories, a), Refusal::RpOpn, Place::First)?;
    *s = s.with_repositories(with(s.repositories, a));
    Ok(0)
}

// No transaction is open.
fn untransacted(s: State) -> Result<(), Refused>
    ensures { Asks (untransacted_of s) result }
{
    refuse_if(
        s.under(Transaction::Aborted),
        Refusal::TrEab,
        Place::Nowhere,
    )?;
    refuse_if(
        !s.under(Transaction::Absent),
        Refusal::TrExs,
        Place::Nowhere,
    )
}

fn close_repository(a: u32, s: &mut State) -> Result<u32, Refused>
    ensures { (w : List ℕ) → Follows (λ s w. session_row InSession.CloseRepository a 0 s) s.old w result s.new w }
{
    untransacted(*s)?;
    refuse_if(no_repository(a), Refusal::RpNexs, Place::First)?;
    refuse_if(not_opened(*s, a), Refusal::RpNopn, Place::First)?;
    *s = s.with_repositories(without(s.repositories, a));
    Ok(0)
}

// A transaction that writes, or one that only reads.
fn start(transaction: Transaction, s: &mut State) -> Result<u32, Refused>
    ensures { (w : List ℕ) → Follows (λ s w. untransacted_of s [] then does 0 (states.with_transaction s (transaction_number transaction)) Stay) s.old w result s.new w }
{
    untransacted(*s)?;
    *s = s.with_transaction(transaction);
    Ok(0)
}

// A transaction is open that is not aborted; `absent` is the refusal where there is none.
fn in_transaction(s: State, absent: Refusal) -> Result<(), Refused>
    ensures { Asks (λ rest. states.under s states.ABORTED gives TR_EAB on 0 ∷ states.under s states.NONE gives number_of absent on 0 ∷ rest) result }
{
    refuse_if(
        s.under(Transaction::Aborted),
        Refusal::TrEab,
        Place::Nowhere,
    )?;
    refuse_if(s.under(Transaction::Absent), absent, Place::Nowhere)
}

// Of commit and abort.
fn settling(s: State) -> Result<(), Refused>
    ensures { Asks (λ rest. settling_of s ++ rest) result }
{
    in_transaction(s, Refusal::TrNexs)?;
    refuse_if(
        s.under(Transaction::ReadOnly),
        Refusal::TrNrw,
        Place::Nowhere,
    )
}

fn commit(s: State, working: &[u64], kept: &mut [u64]) -> Result<u32, Refused>
    ensures { serving (served result s) working.now kept.new ≡ served_by (row_done s (session_row InSession.Commit 0 0 s)) working.now kept.old }
{
    settling(s)?;
    copy(working, kept);
    Ok(0)
}

fn abort(s: &mut State, working: &mut [u64], kept: &[u64]) -> Result<u32, Refused>
    ensures { serving (served result s.new) working.new kept.now ≡ served_by (row_done s.old (session_row InSession.Abort 0 0 s.old)) working.old kept.now }
{
    settling(*s)?;
    copy(kept, working);
    *s = s.with_access(EMPTY, EMPTY);
    Ok(0)
}

fn end_commit(s: &mut State, working: &[u64], kept: &mut [u64]) -> Result<u32, Refused>
    ensures { serving (served result s.new) working.now kept.new ≡ served_by (row_done s.old (session_row InSession.EndCommit 0 0 s.old)) working.now kept.old }
{
    in_transaction(*s, Refusal::TrNexs)?;
    commit_writing(*s, working, kept);
    *s = s.ended(Transaction::Absent);
    Ok(0)
}

// The way out of an aborted transaction too.
fn end_abort(s: &mut State, working: &mut [u64], kept: &[u64]) -> Result<u32, Refused>
    ensures { serving (served result s.new) working.new kept.now ≡ served_by (row_done s.old (session_row InSession.EndAbort 0 0 s.old)) working.old kept.now }
{
    refuse_if(
        s.under(Transaction::Absent),
        Refusal::TrNexs,
        Place::Nowhere,
    )?;
    drop_writing(*s, working, kept);
    *s = s.ended(Transaction::Absent);
    Ok(0)
}

fn storage_fault(s: &mut State, working: &mut [u64], kept: &[u64]) -> Result<u32, Refused>
    ensures { serving (served result s.new) working.new kept.now ≡ served_by (row_done s.old (session_row InSession.StorageFault 0 0 s.old)) working.old kept.now }
{
    in_transaction(*s, Refusal::TrNavl)?;
    drop_writing(*s, working, kept);
    *s = s.ended(Transaction::Aborted);
    Ok(0)
}

fn start_recording(s: &mut State) -> Result<u32, Refused>
    ensures { (w : List ℕ) → Follows (λ s w. session_row InSession.StartRecording 0 0 s) s.old w result s.new w }
{
    *s = s.with_recording(1);
    Ok(1)
}

// The value is whether it was recording.
fn stop_recording(s: &mut State) -> Result<u32, Refused>
    ensures { (w : List ℕ) → Follows (λ s w. session_row InSession.StopRecording 0 0 s) s.old w result s.new w }
{
    let recording = s.recording;
    *s = s.with_recording(0);
    Ok(recording)
}

fn is_subtype(a: u32, b: u32, s: State) -> Result<u32, Refused>
    ensures { (w : List ℕ) → Follows (λ s w. session_row InSession.IsSubtype a b s) s w result s w }
{
    refuse_if(no_type(a), Refusal::EdNdef, Place::First)?;
    refuse_if(no_type(b), Refusal::EdNdef, Place::Second)?;
    refuse_if(types_differ(a, b), Refusal::EdNdeq, Place::Second)?;
    Ok(u32::from(dictionary::subtype(a, b)))
}

pub fn in_session(
    op: InSession,
    o: Order,
    s: &mut State,
    working: &mut [u64],
    kept: &mut [u64],
) -> Result<u32, Refused>
    ensures { serving (served result s.new) working.new kept.new ≡ served_by (row_done s.old (session_row op o.a o.b s.old)) working.old kept.old }
{
    match op {
        InSession::CloseSession => close_session(s, working, kept),
        InSession::OpenRepository => open_repository(o.a, s),
        InSession::CloseRepository => close_repository(o.a, s),
        InSession::StartReadWrite => start(Transaction::ReadWrite, s),
        InSession::StartReadOnly => start(Transaction::ReadOnly, s),
        InSession::Commit => commit(*s, working, kept),
        InSession::Abort => abort(s, working, kept),
        InSession::EndCommit => end_commit(s, working, kept),
        InSession::EndAbort => end_abort(s, working, kept),
        InSession::StartRecording => start_recording(s),
        InSession::StopRecording => stop_recording(s),
        InSession::StorageFault => storage_fault(s, working, kept),
        InSession::IsSubtype => is_subtype(o.a, o.b, *s),
    }
}
