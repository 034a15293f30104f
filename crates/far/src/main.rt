// Tries the listener near 2^62 bytes, where refusal 9 is given, and in impossible states: what each call answers is printed, a line each.
#![tactic(auto)]

mod calls;
mod near;
mod never;

use status::{Ended, STATUS_FILENO, digit};

fn main() {
    near::beginnings();
    near::events();
    near::endings();
    never::openings();
    never::events();
    never::endings();
    io::write_all(STATUS_FILENO, &digit(Ended::Good));
}
