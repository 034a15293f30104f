// Checks a recording against the ring that it is said to be of. The ring comes on standard input, the recording on descriptor 5. Of each a byte more than
// the longest one has is read: what is longer is then refused, or differs, as the whole of it would.
#![tactic(auto)]

use program::reply::give;
use program::room::{file_room, ring_room};
use status::STDIN_FILENO;
use verify_text::verify_text;

const RECORDING_FILENO: i32 = 5;

fn main() {
    let mut ring = ring_room();
    let ring_bytes = io::read_full(STDIN_FILENO, &mut ring);
    let mut file = file_room();
    let file_bytes = io::read_full(RECORDING_FILENO, &mut file);
    let mut out = [0u8; 64];
    let replied = verify_text(&ring[..ring_bytes], &file[..file_bytes], &mut out);
    give(replied.kind, &out[..replied.count]);
}
