// One call on a listener, and the rest of the line that tells of it.
ghost use Rattle.std.specs.Prelude.{◌≤◌};

use reading_rules::Fault;
use replay_serial::tell;
use replay_state::say;
use serial_rules::{Listener, Report};
use table_rules::Refusal;

fn answer(told: Report, used: usize, kept: [u8; 32], piece: &[u8]) {
    match told {
        Report::Refused => say::refusal(Refusal::Far),
        Report::Nothing => {
            say::number(b"", used as u64);
            say::words(b" used");
        }
        _ => {
            say::number(b"", used as u64);
            say::words(b" used,");
            tell::report(told, kept, piece);
        }
    }
}

// A piece of zero bytes.
pub fn feed(l: Listener, count: usize) -> Listener
    requires { count ≤ 2 }
{
    let zeros = [0u8; 2];
    let s = serial::step(l, &zeros[0..count]);
    let next = s.listener;
    say::number(b", piece of ", count as u64);
    say::words(b": ");
    answer(s.report, s.used, next.kept, &zeros[0..count]);
    if l == next {
        say::words(b", as it came");
    }
    say::words(b"\n");
    next
}

pub fn end(l: Listener) {
    say::words(b", end:");
    match serial::end(l) {
        None => say::words(b" nothing"),
        Some(place) => tell::fault(Fault::Early, place),
    }
    say::words(b"\n");
}
