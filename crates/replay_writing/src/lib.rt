// The operations that change a ring: a function for each, which reads the line's fields, makes the call and says its answer.
#![tactic(auto)]

ghost use Rattle.std.specs.Prelude.{◌≡◌, ◌≤◌, IfSome};

use emit_rules::{Label, Outcome};
use replay_state::room::buffer_room;
use replay_state::say;
use replay_state::state::{State, unknown, with_writer};
use script::field::field;
use script::hex::hex;
use script::number::{number, number_to};
use swap_rules::SwapOutcome;
use table_rules::Refusal;

pub fn create(line: &[u8], state: State, ring: &mut [u8]) -> State
    ensures { result ≡ state }
{
    let Some(cpu_id) = number_to(field(line, 2), 65535) else {
        return unknown(state);
    };
    match create::create(ring, cpu_id as u16) {
        Ok(()) => say::words(b"done"),
        Err(refused) => say::refusal(refused),
    }
    say::words(b"\n");
    state
}

fn emission(answer: Result<Outcome, Refusal>) {
    match answer {
        Ok(Outcome::Done) => say::words(b"done"),
        Ok(Outcome::Wake) => say::words(b"wake"),
        Ok(Outcome::Dropped) => say::words(b"dropped"),
        Err(refused) => say::refusal(refused),
    }
}

// The number of the writer's record, and what the line says of the event beside its payload.
fn label_of(line: &[u8]) -> Option<(usize, Label)>
    ensures { IfSome result (λ found. found.0 ≤ 3) }
{
    let w = number_to(field(line, 2), 3)?;
    let timestamp = number(field(line, 3))?;
    let event_type = number_to(field(line, 4), u32::MAX)?;
    let origin_class = number_to(field(line, 5), 255)?;
    let label = Label {
        timestamp,
        event_type: event_type as u32,
        origin_class: origin_class as u8,
    };
    Some((w, label))
}

fn emit_payload(line: &[u8], state: State, ring: &mut [u8], payload: &[u8]) -> State
    ensures { (result.lengths ≡ state.lengths) × (result.readers ≡ state.readers) × (result.slips ≡ state.slips) }
{
    let Some((w, label)) = label_of(line) else {
        return unknown(state);
    };
    let emitted = emit::emit(ring, state.writers[w], label, payload);
    emission(emitted.outcome);
    say::writer(emitted.writer);
    with_writer(state, w, emitted.writer)
}

pub fn emit(line: &[u8], state: State, ring: &mut [u8]) -> State
    ensures { (result.lengths ≡ state.lengths) × (result.readers ≡ state.readers) × (result.slips ≡ state.slips) }
{
    let mut payload = buffer_room();
    let Some(n) = hex(field(line, 6), &mut payload) else {
        return unknown(state);
    };
    emit_payload(line, state, ring, &payload[0..n])
}

// A payload of zero bytes, by its length.
pub fn emitlen(line: &[u8], state: State, ring: &mut [u8]) -> State
    ensures { (result.lengths ≡ state.lengths) × (result.readers ≡ state.readers) × (result.slips ≡ state.slips) }
{
    let Some(n) = number_to(field(line, 6), 40960) else {
        return unknown(state);
    };
    let payload = buffer_room();
    emit_payload(line, state, ring, &payload[0..n])
}

fn exchange(answer: Result<SwapOutcome, Refusal>) {
    match answer {
        Ok(SwapOutcome::Done) => say::words(b"done"),
        Ok(SwapOutcome::Wake) => say::words(b"wake"),
        Err(refused) => say::refusal(refused),
    }
}

pub fn swap(line: &[u8], state: State, old: &mut [u8], new: &mut [u8]) -> State
    ensures { (result.lengths ≡ state.lengths) × (result.readers ≡ state.readers) × (result.slips ≡ state.slips) }
{
    let Some(w) = number_to(field(line, 3), 3) else {
        return unknown(state);
    };
    let swapped = swap::swap(old, new, state.writers[w]);
    exchange(swapped.outcome);
    say::writer(swapped.writer);
    with_writer(state, w, swapped.writer)
}
