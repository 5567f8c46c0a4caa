// The state as two rows of numbers, its sets and its marks, for who holds it so. The library lends a state as it is
// (`session::call::serve`).
ghost use Rattle.std.specs.Prelude.{◌≡◌};
ghost use Rattle.state.specs.Quick.Lent.{sets_of, marks_of, state_of};

use crate::state::State;

pub const SETS: usize = 3;

pub const MARKS: usize = 3;

pub fn sets_of(s: State) -> [u64; SETS]
    ensures { result ≡ sets_of s }
{
    [s.repositories, s.ro, s.rw]
}

pub fn marks_of(s: State) -> [u32; MARKS]
    ensures { result ≡ marks_of s }
{
    [s.opened, s.recording, s.transaction]
}

#[tactic(auto, unfolding(crate::specs::Quick::Lent::state_of))]
pub fn state_of(sets: [u64; SETS], marks: [u32; MARKS]) -> State
    ensures { result ≡ state_of sets marks }
{
    State {
        repositories: sets[0],
        ro: sets[1],
        rw: sets[2],
        opened: marks[0],
        recording: marks[1],
        transaction: marks[2],
    }
}
