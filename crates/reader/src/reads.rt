// What a read brought: every record that is whole by then is answered, and the bytes of one that is not are held at the
// start of the block, where the next read goes on.
ghost use Rattle.std.specs.Prelude.{◌≡◌, ◌≤◌, ◌<◌, ◌+◌, ◌*◌, length, take, drop};
ghost use Rattle.records.specs.Records.{size};
ghost use Rattle.reader.specs.Blocks.{block_records, block_size, line_room, here};
ghost use Rattle.reader.specs.Reads.{between, after_read, after_last};

use crate::blocks::Run;
use records::decoding::SIZE;

// The run, and how many bytes are held.
#[derive(Clone, Copy)]
pub struct Stand {
    pub run: Run,
    pub held: usize,
}

fn carry(block: &mut [u8], from: usize, n: usize)
    requires { from + n ≤ length block.old }
    ensures { take n block.new ≡ take n (drop from block.old) }
{
    block.copy_within(from..from + n, 0);
}

impl Stand {
    // So many bytes came behind those held: memory is fixed, so a block is filled in part, and how far is a number beside it.
    pub fn run_read(
        self,
        block: &mut [u8],
        got: usize,
        out: &mut [u8],
        working: &mut [u64],
        kept: &mut [u64],
    ) -> Self
        requires { (self.held + got ≤ length block.old) × (self.held + got ≤ block_size) × (self.run.at + 4 * (self.held + got) + line_room ≤ length out.old)
            × (self.run.done + block_records < 0x1_0000_0000_0000_0000) }
        ensures { (between result.run result.held block.new out.new working.new kept.new
            ≡ after_read (take got (drop self.held block.old)) (between self.run self.held block.old out.old working.old kept.old))
            × (result.held < size) × (result.run.at ≤ self.run.at + 4 * (self.held + got) + line_room) × (result.run.done ≤ self.run.done + block_records) }
    {
        let have = self.held + got;
        let left = have % SIZE;
        let whole = have - left;
        let run = self.run.run_block(&block[..whole], out, working, kept);
        carry(block, whole, left);
        Stand { run, held: left }
    }

    // No more will come.
    pub fn run_last(
        self,
        block: &[u8],
        out: &mut [u8],
        working: &mut [u64],
        kept: &mut [u64],
    ) -> Run
        requires { (self.held < size) × (self.held ≤ length block.now) × (self.run.at + 4 * self.held + 2 * line_room ≤ length out.old) × (self.run.done + block_records < 0x1_0000_0000_0000_0000) }
        ensures { (here result out.new working.new kept.new
            ≡ after_last (between self.run self.held block.now out.old working.old kept.old))
            × (result.at ≤ self.run.at + 4 * self.held + 2 * line_room) × (result.done ≤ self.run.done + block_records) }
    {
        self.run
            .run_block(&block[..self.held], out, working, kept)
            .ended(out)
    }
}
