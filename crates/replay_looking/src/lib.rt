// A line that leaves the bytes of the buffer that it names, taken to its function by its word.
#![tactic(auto)]

ghost use Rattle.std.specs.Prelude.{◌≡◌};

use replay_setting::memory;
use replay_state::say;
use replay_state::state::State;
use replay_words::Looking;

pub fn on_ring(word: Looking, line: &[u8], state: State, ring: &[u8], out: &mut [u8]) -> State
    ensures { (result.lengths ≡ state.lengths) × (result.writers ≡ state.writers) }
{
    match word {
        Looking::Get => memory::get(line, state, ring),
        Looking::Sum => {
            say::sum(ring);
            state
        }
        Looking::Inspect => replay_reading::inspect(state, ring),
        Looking::Attach => replay_reading::attach(line, state, ring),
        Looking::Read => replay_reading::read(line, state, ring, out),
        Looking::Follow => replay_reading::follow(line, state, ring),
        Looking::Record => replay_recording::record(line, state, ring, out),
        Looking::Copy => replay_slips::copy(line, state, ring, out),
        Looking::Confirm => replay_slips::confirm(line, state, ring),
    }
}
