// RULES 8.2: the firmware has no such calls. Reading, the swap, the recording and its check as C can call them, for the measurement in bench/ alone.
// Records lie in bytes as the firmware's calls have them. What the firmware's calls have no number for gets one of this crate's own, 1,000 or above.
#![tactic(auto)]

ghost use Rattle.std.specs.Prelude.{◌≡◌, ℕ, ◌≤◌, Ok};
ghost use Rattle.bench_calls.specs.Calls.{answer_number, read_answer, same_outcome, recorded_number, read_call, swap_call, record_call};

use crate::reader_bytes::{keep_reader, reader_at};
use console::answer::{emitted_number, refusal_number};
use console::record_bytes::{keep, read};
use emit_rules::Outcome;
use reader_rules::Reading;
use table_rules::Refusal;
use writer_rules::Written;

pub mod checking;
pub mod reader_bytes;

#[derive(Clone, Copy)]
pub enum BenchAnswer {
    Done,
    Empty,
    Moved,
    Again,
    RecordLength,
}

pub fn answer_number(answer: Result<BenchAnswer, Refusal>) -> u32
    ensures { result ≡ answer_number answer }
{
    match answer {
        Ok(BenchAnswer::Done) => 0,
        Ok(BenchAnswer::RecordLength) => 1000,
        Ok(BenchAnswer::Empty) => 1001,
        Ok(BenchAnswer::Moved) => 1002,
        Ok(BenchAnswer::Again) => 1003,
        Err(refusal) => refusal_number(refusal),
    }
}

fn read_answer(reading: Result<Reading, Refusal>) -> Result<BenchAnswer, Refusal>
    ensures { result ≡ read_answer reading }
{
    match reading {
        Ok(Reading::Event(_)) => Ok(BenchAnswer::Done),
        Ok(Reading::Empty) => Ok(BenchAnswer::Empty),
        Ok(Reading::Moved) => Ok(BenchAnswer::Moved),
        Err(refusal) => Err(refusal),
    }
}

// A swap answers as an emission does, so that its number and its record go the same way. No `From`: it could stand in neither enum's crate.
fn same_outcome(outcome: Result<swap_rules::SwapOutcome, Refusal>) -> Result<Outcome, Refusal>
    ensures { result ≡ same_outcome outcome }
{
    match outcome {
        Ok(swap_rules::SwapOutcome::Done) => Ok(Outcome::Done),
        Ok(swap_rules::SwapOutcome::Wake) => Ok(Outcome::Wake),
        Err(refusal) => Err(refusal),
    }
}

// The largest ring's recording has 1,048,608 bytes, so that the number fits.
fn recorded_number(recorded: Result<u64, Refusal>) -> u32
    requires { (count : ℕ) → recorded ≡ Ok count → count ≤ 1048608 }
    ensures { result ≡ recorded_number recorded }
{
    match recorded {
        Ok(count) => 2000 + (count as u32),
        Err(refusal) => refusal_number(refusal),
    }
}

pub fn bench_read(ring: &[u8], record: &mut [u8], out: &mut [u8]) -> u32
    ensures answer { result ≡ (read_call ring.now «record».old out.old).answer }
    ensures kept { «record».new ≡ (read_call ring.now «record».old out.old).kept }
    ensures bytes { out.new ≡ (read_call ring.now «record».old out.old).out }
{
    if record.len() != 32 {
        return answer_number(Ok(BenchAnswer::RecordLength));
    }
    let reader = reader_at(record);
    let answered = reader::read::read(ring, reader, out);
    keep_reader(record, answered.reader);
    let reading = answered.answer;
    answer_number(read_answer(reading))
}

pub fn bench_swap(old: &mut [u8], new: &mut [u8], record: &mut [u8]) -> u32
    ensures answer { result ≡ (swap_call old.old new.old «record».old).answer }
    ensures left { old.new ≡ (swap_call old.old new.old «record».old).old }
    ensures made { new.new ≡ (swap_call old.old new.old «record».old).new }
    ensures kept { «record».new ≡ (swap_call old.old new.old «record».old).kept }
{
    if record.len() != 24 {
        return answer_number(Ok(BenchAnswer::RecordLength));
    }
    let writer = read(record);
    let swapped = swap::swap(old, new, writer);
    let told = swapped.outcome;
    let next = swapped.writer;
    let outcome = same_outcome(told);
    keep(
        record,
        Written {
            outcome,
            writer: next,
        },
    );
    emitted_number(outcome)
}

pub fn bench_record(ring: &[u8], placed: u64, out: &mut [u8]) -> u32
    ensures answer { result ≡ (record_call ring.now placed out.old).answer }
    ensures bytes { out.new ≡ (record_call ring.now placed out.old).out }
{
    let recorded = recording::record(ring, placed, out);
    recorded_number(recorded)
}
