// The lines on slips: one is set, an event is copied, what was copied is confirmed. A function for each, which reads the line's fields, makes the call and
// says its answer.
#![tactic(auto)]

ghost use Rattle.std.specs.Prelude.{◌≡◌, ◌≤◌, IfSome};
ghost use Rattle.replay_slips.specs.Kept.{slips_after};

use replay_state::say;
use replay_state::state::{State, unknown, with_reader, with_slip};
use script::field::field;
use script::number::{number, number_to};
use slip_rules::{Confirming, Copying, Slip};
use table_rules::Refusal;

// The number that a slip goes under, and the slip. Any numbers are taken.
fn slip_of(line: &[u8]) -> Option<(usize, Slip)>
    ensures { IfSome result (λ found. found.0 ≤ 3) }
{
    let s = number_to(field(line, 1), 3)?;
    let slip = Slip {
        position: number(field(line, 2))?,
        size: number(field(line, 3))?,
        sequence: number(field(line, 4))?,
        tail_seen: number(field(line, 5))?,
    };
    Some((s, slip))
}

pub fn set_slip(line: &[u8], state: State) -> State
    ensures lengths { result.lengths ≡ state.lengths }
    ensures writers { result.writers ≡ state.writers }
    ensures readers { result.readers ≡ state.readers }
{
    let Some((s, slip)) = slip_of(line) else {
        return unknown(state);
    };
    say::words(b"ok\n");
    with_slip(state, s, slip)
}

// An event's bytes stand at the front of the output buffer.
fn event(slip: Slip, out: &[u8]) {
    say::number(b"event ", slip.size);
    say::words(b" bytes ");
    if slip.size <= out.len() as u64 {
        say::bytes(&out[0..slip.size as usize]);
    }
    say::slip(slip);
}

fn copying(answer: Result<Copying, Refusal>, out: &[u8]) {
    match answer {
        Ok(Copying::Event(slip)) => event(slip, out),
        Ok(Copying::Empty) => say::words(b"empty"),
        Ok(Copying::Moved) => say::words(b"moved"),
        Err(refused) => say::refusal(refused),
    }
}

fn noted(state: State, s: usize, answer: Result<Copying, Refusal>) -> State
    requires { s ≤ 3 }
    ensures lengths { result.lengths ≡ state.lengths }
    ensures writers { result.writers ≡ state.writers }
    ensures readers { result.readers ≡ state.readers }
    ensures slips { result.slips ≡ slips_after answer s state.slips }
{
    match answer {
        Ok(Copying::Event(slip)) => with_slip(state, s, slip),
        Ok(Copying::Empty) => state,
        Ok(Copying::Moved) => state,
        Err(_) => state,
    }
}

// The record handed back is kept with every answer.
pub fn copy(line: &[u8], state: State, ring: &[u8], out: &mut [u8]) -> State
    ensures { (result.lengths ≡ state.lengths) × (result.writers ≡ state.writers) }
{
    let Some(r) = number_to(field(line, 2), 3) else {
        return unknown(state);
    };
    let Some(s) = number_to(field(line, 3), 3) else {
        return unknown(state);
    };
    let Some(n) = number_to(field(line, 4), 40960) else {
        return unknown(state);
    };
    if n > out.len() {
        return unknown(state);
    }
    let copied = slip::copy::copy(ring, state.readers[r], &mut out[0..n]);
    copying(copied.answer, out);
    say::reader(copied.reader);
    let next = with_reader(state, r, copied.reader);
    noted(next, s, copied.answer)
}

fn confirming(answer: Result<Confirming, Refusal>) {
    match answer {
        Ok(Confirming::Done) => say::words(b"done"),
        Ok(Confirming::Again) => say::words(b"again"),
        Err(refused) => say::refusal(refused),
    }
}

pub fn confirm(line: &[u8], state: State, ring: &[u8]) -> State
    ensures lengths { result.lengths ≡ state.lengths }
    ensures writers { result.writers ≡ state.writers }
    ensures slips { result.slips ≡ state.slips }
{
    let Some(r) = number_to(field(line, 2), 3) else {
        return unknown(state);
    };
    let Some(s) = number_to(field(line, 3), 3) else {
        return unknown(state);
    };
    let confirmed = slip::confirm::confirm(ring, state.readers[r], state.slips[s]);
    confirming(confirmed.answer);
    say::reader(confirmed.reader);
    with_reader(state, r, confirmed.reader)
}
