// A line on two buffers, taken to the two that it names.
#![tactic(auto)]

ghost use Rattle.std.specs.Prelude.{◌≡◌, ◌≤◌};

use replay_state::state::{State, unknown};
use replay_words::Pair;
use script::field::field;
use script::number::number_to;

fn on_pair(
    word: Pair,
    line: &[u8],
    state: State,
    b: usize,
    c: usize,
    old: &mut [u8],
    new: &mut [u8],
) -> State
    requires { (b ≤ 3) × (c ≤ 3) }
    ensures { (result.lengths ≡ state.lengths) × (result.readers ≡ state.readers) × (result.slips ≡ state.slips) }
{
    let from = state.lengths[b];
    let to = state.lengths[c];
    if from > old.len() {
        return unknown(state);
    }
    if to > new.len() {
        return unknown(state);
    }
    match word {
        Pair::Swap => replay_writing::swap(line, state, &mut old[0..from], &mut new[0..to]),
        Pair::Verify => {
            replay_recording::verify(&old[0..from], &new[0..to]);
            state
        }
    }
}

// From buffer b to one of the three others, each with its number; `to` is b itself or no buffer where it is none of them.
fn on_others(
    word: Pair,
    line: &[u8],
    state: State,
    b: usize,
    i: usize,
    j: usize,
    k: usize,
    old: &mut [u8],
    x: &mut [u8],
    y: &mut [u8],
    z: &mut [u8],
) -> State
    requires { (b ≤ 3) × (i ≤ 3) × (j ≤ 3) × (k ≤ 3) }
    ensures { (result.lengths ≡ state.lengths) × (result.readers ≡ state.readers) × (result.slips ≡ state.slips) }
{
    match number_to(field(line, 2), 3) {
        Some(to) if to == i => on_pair(word, line, state, b, i, old, x),
        Some(to) if to == j => on_pair(word, line, state, b, j, old, y),
        Some(to) if to == k => on_pair(word, line, state, b, k, old, z),
        _ => unknown(state),
    }
}

pub fn on_two(
    word: Pair,
    line: &[u8],
    state: State,
    first: &mut [u8],
    second: &mut [u8],
    third: &mut [u8],
    fourth: &mut [u8],
) -> State
    ensures { (result.lengths ≡ state.lengths) × (result.readers ≡ state.readers) × (result.slips ≡ state.slips) }
{
    match number_to(field(line, 1), 3) {
        Some(0) => on_others(word, line, state, 0, 1, 2, 3, first, second, third, fourth),
        Some(1) => on_others(word, line, state, 1, 0, 2, 3, second, first, third, fourth),
        Some(2) => on_others(word, line, state, 2, 0, 1, 3, third, first, second, fourth),
        Some(3) => on_others(word, line, state, 3, 0, 1, 2, fourth, first, second, third),
        _ => unknown(state),
    }
}
