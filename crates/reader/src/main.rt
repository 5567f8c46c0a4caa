// The reader's program: records on standard input, a line for each on standard output as soon as it is whole. The start
// is fresh, so the state stays sound, and the machine is called without the judgement of what comes in.
#![tactic(auto)]

mod blocks;
mod reads;

ghost use Rattle.std.specs.Prelude.{◌≡◌, true, false, List, ℕ, ◌≤◌, ◌<◌, ◌+◌, length, take, IfOk};
ghost use Rattle.records.specs.Records.{size};
ghost use Rattle.reader.specs.Blocks.{block_records, block_size, out_size, here};
ghost use Rattle.reader.specs.Reads.{between, after_read, silent, flushed};

use blocks::{BLOCK, OUT, Run};
use reads::Stand;
use std::io;
use std::io::Read;
use words::layout::WORDS;

// A proved loop has to end. So many reads take centuries.
const TURNS: u64 = 0x20_0000_0000_0000;

// What has come, behind the bytes held.
fn fetch(rt: &HostRuntime, held: usize, block: &mut [u8]) -> io::Result<usize>
    requires { held ≤ length block.old }
    ensures kept { take held block.new ≡ take held block.old }
    ensures within { IfOk result (λ got. held + got ≤ length block.old) }
{
    rt.stdin().read(&mut block[held..])
}

// The program stops, and says why on standard error.
fn halted(rt: &HostRuntime, run: Run, why: &str) -> Run
    ensures { (result.at ≡ 0) × (result.done ≡ run.done) × (result.on ≡ false) }
{
    rt.eprintln(why).ok();
    Run {
        at: 0,
        on: false,
        ..run
    }
}

// The text goes out. A write that fails stops the program.
fn sent(rt: &HostRuntime, run: Run, out: &[u8]) -> Run
    requires { run.at ≤ length out.now }
    ensures { (result.at ≡ 0) × (result.done ≡ run.done) × (result.on ≡ true → (o w k : List ℕ) → here result o w k ≡ silent (here run o w k)) }
{
    if rt.write_all(&out[..run.at]).is_err() {
        return halted(rt, run, "reader: the output cannot be written");
    }
    Run { at: 0, ..run }
}

// One read: what has come, what it prints, and whether the program goes on. If it does, it stands behind some bytes more.
fn turn(
    rt: &HostRuntime,
    start: Stand,
    block: &mut [u8],
    out: &mut [u8],
    working: &mut [u64],
    kept: &mut [u64],
) -> Stand
    requires { (length block.old ≡ block_size) × (length out.old ≡ out_size) × (start.run.at ≡ 0) × (start.held < size) × (start.run.done + block_records < 0x1_0000_0000_0000_0000) }
    ensures { (result.run.at ≡ 0) × (result.held < size) × (result.run.done ≤ start.run.done + block_records)
        × (result.run.on ≡ true
        → (came : List ℕ) × (between result.run result.held block.new out.new working.new kept.new
        ≡ flushed (after_read came (between start.run start.held block.old out.old working.old kept.old)))) }
{
    let Ok(got) = fetch(rt, start.held, block) else {
        return Stand {
            run: halted(rt, start.run, "reader: the input cannot be read"),
            held: 0,
        };
    };
    if got == 0 {
        let run = start.run_last(block, out, working, kept);
        return Stand {
            run: sent(rt, run, out),
            held: 0,
        };
    }
    let next = start.run_read(block, got, out, working, kept);
    Stand {
        run: sent(rt, next.run, out),
        held: next.held,
    }
}

fn serve(rt: &HostRuntime, block: &mut [u8], out: &mut [u8], working: &mut [u64], kept: &mut [u64])
    requires { (length block.old ≡ block_size) × (length out.old ≡ out_size) }
{
    let mut stand = Stand {
        run: Run::fresh(),
        held: 0,
    };
    for _ in 0..TURNS {
        if !stand.run.on {
            break;
        }
        stand = turn(rt, stand, block, out, working, kept);
    }
}

fn main(rt: HostRuntime) {
    let mut block = [0u8; BLOCK];
    let mut out = [0u8; OUT];
    let mut working = [0u64; WORDS];
    let mut kept = [0u64; WORDS];
    serve(&rt, &mut block, &mut out, &mut working, &mut kept);
}
