// A line that may change the bytes of the buffer that it names, taken to its function by its word: by a match here and in the crates beside it, since each
// arm hands on what its function asks, and promises what all promise.
#![tactic(auto)]

ghost use Rattle.std.specs.Prelude.{◌≡◌};

use replay_setting::memory;
use replay_state::state::State;
use replay_words::Changing;

pub fn on_ring(word: Changing, line: &[u8], state: State, ring: &mut [u8]) -> State
    ensures { (result.lengths ≡ state.lengths) × (result.readers ≡ state.readers) × (result.slips ≡ state.slips) }
{
    match word {
        Changing::Put => memory::put(line, state, ring),
        Changing::Create => replay_writing::create(line, state, ring),
        Changing::Emit => replay_writing::emit(line, state, ring),
        Changing::Emitlen => replay_writing::emitlen(line, state, ring),
    }
}
