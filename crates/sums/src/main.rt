// RULES 9.1: lines 1 to 12 of the sums worked on real rings: what is found is printed, a line each.
#![tactic(auto)]

mod lives;
mod print;
mod refusals;

use status::{Ended, STATUS_FILENO, digit};

fn main() {
    lives::one_ring();
    lives::larger_first();
    lives::nothing_fits();
    lives::two_capacities();
    refusals::counter_at_its_end();
    refusals::lengths();
    io::write_all(STATUS_FILENO, &digit(Ended::Good));
}
