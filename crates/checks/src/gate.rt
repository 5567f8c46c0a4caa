// What is asked before every call (CHIP): whether the operation is listed, whether a session is open, and the transaction that its
// family needs.
ghost use Rattle.std.specs.Prelude.{◌++◌};
ghost use Rattle.checks.specs.Checks.{transacted as transacted_of, gate as gate_of};
ghost use Rattle.checks.specs.Quick.Asked.{Asks};

use crate::operations::Operation;
use crate::shared::refuse_if;
use state::refusals::{Place, Refusal, Refused};
use state::state::{State, Transaction};

// A session and a transaction are open.
fn transacted(s: State) -> Result<(), Refused>
    ensures { Asks (transacted_of s) result }
{
    refuse_if(!s.is_open(), Refusal::SsNopn, Place::Nowhere)?;
    refuse_if(
        s.under(Transaction::Aborted),
        Refusal::TrEab,
        Place::Nowhere,
    )?;
    refuse_if(
        s.under(Transaction::Absent),
        Refusal::TrNavl,
        Place::Nowhere,
    )
}

pub fn gate(op: Operation, s: State) -> Result<(), Refused>
    ensures { Asks (λ rest. gate_of op s ++ rest) result }
{
    match op {
        Operation::Unlisted => Err(Refusal::FnNavl.on(Place::Nowhere)),
        Operation::Opening => refuse_if(s.is_open(), Refusal::SsOpn, Place::Nowhere),
        Operation::InSession(_) => refuse_if(!s.is_open(), Refusal::SsNopn, Place::Nowhere),
        Operation::Reader(_) => transacted(s),
        Operation::Writer(_) => {
            transacted(s)?;
            refuse_if(
                s.under(Transaction::ReadOnly),
                Refusal::TrNrw,
                Place::Nowhere,
            )
        }
    }
}
