// The calls that record a ring and check a recording: each function reads the line's fields, makes the call and says its answer.
#![tactic(auto)]

ghost use Rattle.std.specs.Prelude.{◌≡◌};

use replay_state::say;
use replay_state::state::{State, unknown};
use script::field::field;
use script::number::{number, number_to};
use table_rules::Refusal;

// The bytes put stand at the front of the output buffer, and there are never more of them than it has.
fn piece(answer: Result<u64, Refusal>, out: &[u8]) {
    match answer {
        Ok(count) => {
            say::number(b"placed ", count);
            say::words(b" bytes ");
            if count <= out.len() as u64 {
                say::bytes(&out[0..count as usize]);
            }
        }
        Err(refused) => say::refusal(refused),
    }
    say::words(b"\n");
}

// Nothing is kept from one piece to the next: the line alone says how many bytes were placed.
pub fn record(line: &[u8], state: State, ring: &[u8], out: &mut [u8]) -> State
    ensures { result ≡ state }
{
    let Some(placed) = number(field(line, 2)) else {
        return unknown(state);
    };
    let Some(n) = number_to(field(line, 3), 40960) else {
        return unknown(state);
    };
    if n > out.len() {
        return unknown(state);
    }
    let answer = recording::record(ring, placed, &mut out[0..n]);
    piece(answer, out);
    state
}

// The line has no further field, and there is no record.
pub fn verify(ring: &[u8], file: &[u8]) {
    match verification::verify(ring, file) {
        Ok(None) => say::words(b"same"),
        Ok(Some(place)) => say::number(b"differs at ", place),
        Err(refused) => say::refusal(refused),
    }
    say::words(b"\n");
}
