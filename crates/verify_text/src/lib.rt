// RULES 10.10: a ring's bytes and a recording's in, one line out: whether the two agree, or why that can't be said.
#![tactic(auto)]

ghost use Rattle.std.specs.Prelude.{◌+◌, ◌≤◌, length};
ghost use Rattle.text.specs.Put.{Put};
ghost use Rattle.refusal_text.specs.Reply.{Stands};
ghost use Rattle.verify_text.specs.Verdict.{same_line, differs_line, compared_by, verdict};

use refusal_text::{Kind, Replied, put_refusal_line};
use text::phrase::put_worded;
use text::put::{put_byte, put_bytes};
use verification::verify;

// Twenty digits and the words around them have room in 32 bytes.
fn put_same_line(size: u64, out: &mut [u8], at: usize) -> usize
    requires { at + 32 ≤ length out.old }
    ensures put { Put out.old at (same_line size) out.new result }
    ensures upper_bound { result ≤ at + 32 }
{
    let end = put_worded(b"same ", size, out, at);
    put_bytes(b" bytes\n", out, end)
}

fn put_differs_line(place: u64, out: &mut [u8], at: usize) -> usize
    requires { at + 32 ≤ length out.old }
    ensures put { Put out.old at (differs_line place) out.new result }
    ensures upper_bound { result ≤ at + 32 }
{
    let end = put_worded(b"differs at ", place, out, at);
    put_byte(b'\n', out, end)
}

fn tell(difference: Option<u64>, size: u64, out: &mut [u8; 64]) -> Replied
    ensures { Stands out.old (compared_by size difference) out.new result }
{
    match difference {
        None => Replied {
            kind: Kind::Wanted,
            count: put_same_line(size, out, 0),
        },
        Some(place) => Replied {
            kind: Kind::Other,
            count: put_differs_line(place, out, 0),
        },
    }
}

// Every line has room in 64 bytes, so this asks nothing of its caller.
pub fn verify_text(ring: &[u8], file: &[u8], out: &mut [u8; 64]) -> Replied
    ensures { Stands out.old (verdict ring.now file.now) out.new result }
{
    match verify(ring, file) {
        Err(refusal) => Replied {
            kind: Kind::Hindrance,
            count: put_refusal_line(refusal, out, 0),
        },
        Ok(difference) => tell(difference, file.len() as u64, out),
    }
}
