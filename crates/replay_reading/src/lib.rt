// The operations that leave a ring as it is: a function for each, which reads the line's fields, makes the call and says its answer.
#![tactic(auto)]

ghost use Rattle.std.specs.Prelude.{◌≡◌, ◌≤◌};

use reader_rules::{Answered, Reading};
use replay_state::say;
use replay_state::state::{State, unknown, with_reader};
use script::field::field;
use script::number::number_to;
use table_rules::Refusal;

pub fn inspect(state: State, ring: &[u8]) -> State
    ensures { result ≡ state }
{
    match inspect::inspect(ring) {
        Ok(summary) => {
            say::number(b"kept ", summary.count);
            say::number(b" first ", summary.first);
            say::number(b" last ", summary.last);
        }
        Err(refused) => say::refusal(refused),
    }
    say::words(b"\n");
    state
}

// What attaching and following answer.
fn attachment(state: State, r: usize, attached: Answered<()>) -> State
    requires { r ≤ 3 }
    ensures { (result.lengths ≡ state.lengths) × (result.writers ≡ state.writers) × (result.slips ≡ state.slips) }
{
    match attached.answer {
        Ok(()) => say::words(b"done"),
        Err(refused) => say::refusal(refused),
    }
    say::reader(attached.reader);
    with_reader(state, r, attached.reader)
}

pub fn attach(line: &[u8], state: State, ring: &[u8]) -> State
    ensures { (result.lengths ≡ state.lengths) × (result.writers ≡ state.writers) × (result.slips ≡ state.slips) }
{
    let Some(r) = number_to(field(line, 2), 3) else {
        return unknown(state);
    };
    attachment(state, r, reader::attach::attach(ring, state.readers[r]))
}

pub fn follow(line: &[u8], state: State, ring: &[u8]) -> State
    ensures { (result.lengths ≡ state.lengths) × (result.writers ≡ state.writers) × (result.slips ≡ state.slips) }
{
    let Some(r) = number_to(field(line, 2), 3) else {
        return unknown(state);
    };
    attachment(state, r, follow::follow(ring, state.readers[r]))
}

// An event's bytes stand at the front of the output buffer.
fn reading(answer: Result<Reading, Refusal>, out: &[u8]) {
    match answer {
        Ok(Reading::Event(size)) => {
            say::number(b"event ", size);
            say::words(b" bytes ");
            if size <= out.len() as u64 {
                say::bytes(&out[0..size as usize]);
            }
        }
        Ok(Reading::Empty) => say::words(b"empty"),
        Ok(Reading::Moved) => say::words(b"moved"),
        Err(refused) => say::refusal(refused),
    }
}

pub fn read(line: &[u8], state: State, ring: &[u8], out: &mut [u8]) -> State
    ensures { (result.lengths ≡ state.lengths) × (result.writers ≡ state.writers) × (result.slips ≡ state.slips) }
{
    let Some(r) = number_to(field(line, 2), 3) else {
        return unknown(state);
    };
    let Some(n) = number_to(field(line, 3), 40960) else {
        return unknown(state);
    };
    if n > out.len() {
        return unknown(state);
    }
    let answered = reader::read::read(ring, state.readers[r], &mut out[0..n]);
    reading(answered.answer, out);
    say::reader(answered.reader);
    with_reader(state, r, answered.reader)
}
