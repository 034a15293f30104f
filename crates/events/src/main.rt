// Shows the recording that arrives on standard input, a line for each event as soon as it is whole. Each read is shown before the next one, so that a
// slow line is watched live.
#![tactic(auto)]

ghost use Rattle.std.specs.Prelude.{◌≡◌, true, ◌≤◌, ◌<◌, length};
ghost use Rattle.events_text.specs.Events.{keeps_on};

use events_text::report::{fresh_showing, goes_on};
use events_text::{Heard, Showing, Shown, ended_by, show, show_end, show_refusal};
use status::{STATUS_FILENO, STDERR_FILENO, STDOUT_FILENO, digit};
use std::io::Read;

// As much of the piece as one buffer has room to show. Where nobody takes the lines there is no use in going on.
fn write_some(showing: Showing, piece: &[u8]) -> Shown
    ensures used_in_bounds { result.used ≤ length piece.now }
    ensures used_nonzero { keeps_on result.how ≡ true → 0 < length piece.now → 0 < result.used }
{
    let mut out = [0u8; 4096];
    let shown = show(showing, piece, &mut out);
    if io::write_all(STDOUT_FILENO, &out[..shown.count]) {
        return shown;
    }
    Shown {
        how: Heard::Fault,
        ..shown
    }
}

// What is shown so far, or how it stands at the end: there is no use in going on.
fn write_piece(showing: Showing, piece: &[u8]) -> Result<Showing, Heard> {
    let mut current = showing;
    let mut used = 0;
    while used < piece.len() {
        let shown = write_some(current, &piece[used..]);
        current = shown.showing;
        used += shown.used;
        if !goes_on(shown.how) {
            return Err(shown.how);
        }
    }
    Ok(current)
}

fn write_end(showing: Showing) -> Heard {
    let mut out = [0u8; 128];
    let shown = show_end(showing, &mut out);
    io::write_all(STDOUT_FILENO, &out[..shown.count]);
    shown.how
}

// A read gives what has arrived. One that fails counts as the input's end.
fn watch_once(rt: &HostRuntime, showing: Showing) -> Result<Showing, Heard> {
    let mut bytes = [0u8; 4096];
    let n = rt.stdin().read(&mut bytes).unwrap_or(0);
    if n == 0 {
        return Err(write_end(showing));
    }
    write_piece(showing, &bytes[..n])
}

// A proved loop has to end, and nothing says that the input does: the turns are those of a number that no run uses up.
fn watch(rt: &HostRuntime) -> Heard {
    let mut current = fresh_showing();
    for _ in 0..u64::MAX {
        match watch_once(rt, current) {
            Ok(next) => current = next,
            Err(how) => return how,
        }
    }
    Heard::Refused
}

fn write_refusal() {
    let mut out = [0u8; 128];
    let count = show_refusal(&mut out);
    io::write_all(STDERR_FILENO, &out[..count]);
}

fn main(rt: HostRuntime) {
    let how = watch(&rt);
    if how == Heard::Refused {
        write_refusal();
    }
    io::write_all(STATUS_FILENO, &digit(ended_by(how)));
}
