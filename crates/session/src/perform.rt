// An operation by its family, behind the gate.
ghost use Rattle.std.specs.Prelude.{◌≡◌};
ghost use Rattle.session.specs.Rows.{row_of};
ghost use Rattle.session.specs.Quick.Rows.{row_done};
ghost use Rattle.session.specs.Quick.Served.{serving, served, served_by};

use crate::in_session::in_session;
use crate::readers::read;
use crate::writers::write;
use checks::operations::Operation;
use state::refusals::Refused;
use state::state::{Order, State, opened_state};

pub fn own(
    op: Operation,
    o: Order,
    s: &mut State,
    working: &mut [u64],
    kept: &mut [u64],
) -> Result<u32, Refused>
    ensures { serving (served result s.new) working.new kept.new ≡ served_by (row_done s.old (row_of op o.a o.b o.c s.old working.old)) working.old kept.old }
{
    match op {
        // The gate has refused it: this is its row (`row_of`).
        Operation::Unlisted => Ok(0),
        Operation::Opening => {
            *s = opened_state();
            Ok(0)
        }
        Operation::InSession(op) => in_session(op, o, s, working, kept),
        Operation::Reader(op) => read(op, o, s, working),
        Operation::Writer(op) => write(op, o, s, working),
    }
}
