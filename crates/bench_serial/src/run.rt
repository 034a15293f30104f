// Strides over a piece for as long as they can be made. What is kept stays out of this loop, whose state is then a few numbers.
ghost use Rattle.std.specs.Prelude.{◌+◌, ◌-◌, ◌^◌, ◌≤◌, length, drop};
ghost use Rattle.bench_serial.specs.Listened.{SameRest};

use crate::Reached;
use crate::reports::stride_number;
use serial_rules::Course;
use strides::stride::stride;

pub fn run(course: Course, piece: &[u8], from: usize, sum: u64) -> Reached<Course>
    requires { (from ≤ length piece.now) × (course.events ≤ course.last) × (course.place + (length piece.now - from) ≤ 2 ^ 62) }
    ensures within { (from ≤ result.at) × (result.at ≤ length piece.now) }
    ensures same { SameRest course (drop from piece.now) sum result.state (drop result.at piece.now) result.sum }
{
    let mut at = from;
    let mut c = course;
    let mut total = sum;
    while at < piece.len() {
        let rest = &piece[at..];
        let s = stride(c, rest);
        let used = s.used;
        if used == 0 {
            return Reached {
                state: c,
                at,
                sum: total,
            };
        }
        total = total.wrapping_add(stride_number(s.report, rest));
        c = s.course;
        at += used;
    }
    Reached {
        state: c,
        at,
        sum: total,
    }
}
