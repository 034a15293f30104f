// Lists the ring on standard input. One byte above the most that a listing takes is read, so that a longer input is seen to be too long.
#![tactic(auto)]

use listing_text::listing;
use refusal_text::Kind;
use status::{Ended, STATUS_FILENO, STDIN_FILENO, STDOUT_FILENO, digit};

fn main() {
    let mut input = [0u8; 40961];
    let n = io::read_full(STDIN_FILENO, &mut input);
    let mut out = [0u8; 131072];
    let replied = listing(&input[..n], &mut out);
    io::write_all(STDOUT_FILENO, &out[..replied.count]);
    let ended = if replied.kind == Kind::Wanted {
        Ended::Good
    } else {
        Ended::Other
    };
    io::write_all(STATUS_FILENO, &digit(ended));
}
