// A line on one buffer, taken to the buffer that it names.
#![tactic(auto)]

ghost use Rattle.std.specs.Prelude.{◌≡◌, ◌≤◌};

use replay_setting::memory;
use replay_state::state::{State, unknown};
use replay_words::Command;
use script::field::field;
use script::number::number_to;

// On the bytes of a buffer that are in use.
fn on_ring(command: Command, line: &[u8], state: State, ring: &mut [u8], out: &mut [u8]) -> State
    ensures { result.lengths ≡ state.lengths }
{
    match command {
        Command::Changing(word) => replay_changing::on_ring(word, line, state, ring),
        Command::Looking(word) => replay_looking::on_ring(word, line, state, ring, out),
        _ => unknown(state),
    }
}

// No length is above the buffer's.
fn on_buffer(
    command: Command,
    line: &[u8],
    state: State,
    b: usize,
    buffer: &mut [u8],
    out: &mut [u8],
) -> State
    requires { b ≤ 3 }
    ensures { result.lengths ≡ state.lengths }
{
    let length = state.lengths[b];
    if length > buffer.len() {
        return unknown(state);
    }
    on_ring(command, line, state, &mut buffer[0..length], out)
}

// The buffers come one by one here and above: of an array of slices the borrow checker lends no two at once, as a line on two buffers wants them.
pub fn on_one(
    command: Command,
    line: &[u8],
    state: State,
    first: &mut [u8],
    second: &mut [u8],
    third: &mut [u8],
    fourth: &mut [u8],
    out: &mut [u8],
) -> State
    ensures { result.lengths ≡ state.lengths }
{
    match number_to(field(line, 1), 3) {
        Some(0) => on_buffer(command, line, state, 0, first, out),
        Some(1) => on_buffer(command, line, state, 1, second, out),
        Some(2) => on_buffer(command, line, state, 2, third, out),
        Some(3) => on_buffer(command, line, state, 3, fourth, out),
        _ => unknown(state),
    }
}

// `size` alone has the whole buffer, and alone sets a length.
pub fn on_size(
    line: &[u8],
    state: State,
    first: &mut [u8],
    second: &mut [u8],
    third: &mut [u8],
    fourth: &mut [u8],
) -> State
    ensures { (result.writers ≡ state.writers) × (result.readers ≡ state.readers) × (result.slips ≡ state.slips) }
{
    match number_to(field(line, 1), 3) {
        Some(0) => memory::size(line, state, 0, first),
        Some(1) => memory::size(line, state, 1, second),
        Some(2) => memory::size(line, state, 2, third),
        Some(3) => memory::size(line, state, 3, fourth),
        _ => unknown(state),
    }
}
