// The records at the start of a block, each taken from where it begins in the block.
ghost use Rattle.std.specs.Prelude.{◌≡◌, ℕ, ◌≤◌, ◌<◌, ◌+◌, ◌*◌, List, length};
ghost use Rattle.records.specs.Records.{record_of};
ghost use Rattle.reader.specs.Blocks.{block_records, block_size, line_room, fresh_run, here, Room, Moved, after_record, after_bad, after_found, after_end, after_bytes};

use records::decoding::{SIZE, decode};
use records::lines::{bad, end, line};
use session::call::core;
use state::events::blank_log;
use state::state::{Order, Session, closed_state};

// The records of a block, and the bytes that a line of text has room in.
const RECORDS: usize = 1024;

const LINE: usize = 64;

// The bytes of a block, and of the text for it: a line for each record, and two more.
pub const BLOCK: usize = RECORDS * SIZE;

pub const OUT: usize = (RECORDS + 2) * LINE;

// What is carried from record to record: the session, how many records are done, the next position in the output, and
// whether the program goes on. The last two are fields, since `here` reads them, and by it the theorems go on what is printed.
// Output and tables are lent to each method apart: of a struct of three `&mut` each contract would have to say that it holds
// the same three still.
#[derive(Clone, Copy)]
pub struct Run {
    pub session: Session,
    pub done: u64,
    pub at: usize,
    pub on: bool,
}

impl Run {
    pub fn fresh() -> Self
        ensures { result ≡ fresh_run }
    {
        Run {
            session: Session {
                state: closed_state(),
                log: blank_log(),
            },
            done: 0,
            at: 0,
            on: true,
        }
    }

    // A record that is whole: the call, and its line.
    fn answered(self, order: Order, out: &mut [u8], working: &mut [u64], kept: &mut [u64]) -> Self
        requires { Room self out.old }
        ensures { (here result out.new working.new kept.new
            ≡ after_record order (here self out.old working.old kept.old)) × Moved self result }
    {
        let Order { op, a, b, c } = order;
        let answer = core(op, a, b, c, self.session, working, kept);
        let done = self.done + 1;
        let at = line(
            out,
            self.at,
            done,
            op,
            answer.refusal,
            answer.value,
            answer.place,
        );
        Run {
            session: answer.session,
            done,
            at,
            on: true,
        }
    }

    // A record that is not: the line that says so, and no more.
    fn refused(self, out: &mut [u8]) -> Self
        requires { Room self out.old }
        ensures { ((w k : List ℕ) → here result out.new w k ≡ after_bad (here self out.old w k)) × Moved self result }
    {
        Run {
            at: bad(out, self.at, self.done + 1),
            on: false,
            ..self
        }
    }

    // The record that a part of a block begins with.
    fn taken(self, part: &[u8], out: &mut [u8], working: &mut [u64], kept: &mut [u64]) -> Self
        requires { Room self out.old }
        ensures { (here result out.new working.new kept.new
            ≡ after_found (record_of part.now) (here self out.old working.old kept.old)) × Moved self result }
    {
        match decode(part) {
            Some(order) => self.answered(order, out, working, kept),
            None => self.refused(out),
        }
    }

    // That the count does not wrap is asked for, here and above: as a fact of the type it would be lost with each record.
    pub fn run_block(
        self,
        bytes: &[u8],
        out: &mut [u8],
        working: &mut [u64],
        kept: &mut [u64],
    ) -> Self
        requires { (length bytes.now ≤ block_size) × (self.at + 4 * length bytes.now + line_room ≤ length out.old) × (self.done + block_records < 0x1_0000_0000_0000_0000) }
        ensures { (here result out.new working.new kept.new
            ≡ after_bytes bytes.now (here self out.old working.old kept.old))
            × (result.at ≤ self.at + 4 * length bytes.now + line_room) × (result.done ≤ self.done + block_records) }
    {
        let mut run = self;
        for part in bytes.chunks(SIZE) {
            run = run.taken(part, out, working, kept);
            if !run.on {
                return run;
            }
        }
        run
    }

    // At the end of the input: how many records were done.
    pub fn ended(self, out: &mut [u8]) -> Self
        requires { self.at + line_room ≤ length out.old }
        ensures { ((w k : List ℕ) → here result out.new w k ≡ after_end (here self out.old w k)) × (result.at ≤ self.at + line_room) × (result.done ≡ self.done) }
    {
        if !self.on {
            return self;
        }
        Run {
            at: end(out, self.at, self.done),
            on: false,
            ..self
        }
    }
}
