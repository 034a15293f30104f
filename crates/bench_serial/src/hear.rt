// One piece listened to: by strides wherever they can be made, else by steps.
ghost use Rattle.std.specs.Prelude.{◌≡◌, ◌+◌, ◌^◌, ◌≤◌, true, length, drop};
ghost use Rattle.bench_serial.specs.Listened.{heard};

use crate::reports::report_number;
use crate::run::run;
use crate::{Hearing, Reached};
use serial::listener::is_too_far;
use serial::step;
use serial_rules::Listener;

// Strides keep nothing, and don't ask whether a state is possible or too far.
fn may_stride(l: Listener, more: usize) -> bool
    ensures { result ≡ true → (l.held ≡ 0) × (l.course.events ≤ l.course.last) × (l.course.place + more ≤ 2 ^ 62) }
{
    if l.held != 0 {
        return false;
    }
    let course = l.course;
    if course.last < course.events {
        return false;
    }
    !is_too_far(l, more)
}

fn stride_on(l: Listener, piece: &[u8], at: usize, sum: u64) -> Reached<Listener>
    requires { at ≤ length piece.now }
    ensures within { (at ≤ result.at) × (result.at ≤ length piece.now) }
    ensures same { heard l (drop at piece.now) sum ≡ heard result.state (drop result.at piece.now) result.sum }
{
    if !may_stride(l, piece.len() - at) {
        return Reached { state: l, at, sum };
    }
    let ran = run(l.course, piece, at, sum);
    let state = Listener {
        course: ran.state,
        held: 0,
        ..l
    };
    Reached {
        state,
        at: ran.at,
        sum: ran.sum,
    }
}

pub fn hear(listener: Listener, piece: &[u8], sum: u64) -> Hearing
    ensures { result ≡ heard listener piece.now sum }
{
    let mut state = listener;
    let mut at = 0;
    let mut total = sum;
    while at < piece.len() {
        let reached = stride_on(state, piece, at, total);
        state = reached.state;
        at = reached.at;
        total = reached.sum;
        if at == piece.len() {
            return Hearing {
                listener: state,
                sum: total,
            };
        }
        let s = step(state, &piece[at..]);
        if s.used == 0 {
            return Hearing {
                listener: state,
                sum: total,
            };
        }
        let next = s.listener;
        let kept = next.kept;
        let report = s.report;
        total = total.wrapping_add(report_number(report, &piece[at..], kept));
        state = next;
        at += s.used;
    }
    Hearing {
        listener: state,
        sum: total,
    }
}
