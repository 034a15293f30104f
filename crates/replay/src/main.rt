// Plays a script of calls on rings, of at most 1 MiB on standard input, and answers each line by a line (tests/second/README.md, "A script").
#![tactic(auto)]

mod play;
mod room;

use replay_state::room::buffer_room;
use replay_state::say::words;
use room::{SCRIPT_ROOM, script_room};
use status::{Ended, STATUS_FILENO, STDIN_FILENO, digit};

fn main() {
    let mut script = script_room();
    let n = io::read_full(STDIN_FILENO, &mut script);
    if n == SCRIPT_ROOM {
        words(b"too long\n");
        io::write_all(STATUS_FILENO, &digit(Ended::Other));
        return;
    }
    let mut first = buffer_room();
    let mut second = buffer_room();
    let mut third = buffer_room();
    let mut fourth = buffer_room();
    let mut out = buffer_room();
    play::play(
        &script[..n],
        &mut first,
        &mut second,
        &mut third,
        &mut fourth,
        &mut out,
    );
    io::write_all(STATUS_FILENO, &digit(Ended::Good));
}
