// Writes the recording of the ring on standard input. One byte above the longest ring is read, so that a longer input is seen to be too long.
#![tactic(auto)]

use program::reply::give;
use program::room::{recording_room, ring_room};
use record_file::record_file;
use status::STDIN_FILENO;

fn main() {
    let mut input = ring_room();
    let n = io::read_full(STDIN_FILENO, &mut input);
    let mut out = recording_room();
    let replied = record_file(&input[..n], &mut out);
    give(replied.kind, &out[..replied.count]);
}
