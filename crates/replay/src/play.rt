// The lines of a script in order.
use replay_line::{begun, step};
use replay_state::say;

// Bytes behind the last newline are no line: they may have been cut off within a field.
pub fn play(
    script: &[u8],
    first: &mut [u8],
    second: &mut [u8],
    third: &mut [u8],
    fourth: &mut [u8],
    out: &mut [u8],
) {
    let mut state = begun();
    for whole in script.split_inclusive(|byte| *byte == b'\n') {
        let Some(line) = whole.strip_suffix(b"\n") else {
            say::words(b"unknown\n");
            return;
        };
        state = step(line, state, first, second, third, fourth, out);
    }
}
