// RULES 8.2: the firmware has no such calls. Copying and confirming as C can call them, for the measurement in bench/ alone, with record and slip in 32
// bytes each. Apart from reading: in one archive with it the compiler makes copying a function of its own, which reading then calls (docs/BENCHMARK.md).
#![tactic(auto)]

ghost use Rattle.std.specs.Prelude.{◌≡◌};
ghost use Rattle.bench_slips.specs.Slips.{copy_answer, confirm_answer, copy_call, confirm_call};

use crate::slip_bytes::{keep_copied, slip_at};
use bench_calls::reader_bytes::{keep_reader, reader_at};
use bench_calls::{BenchAnswer, answer_number};
use slip_rules::{Confirming, Copying};
use table_rules::Refusal;

pub mod slip_bytes;

fn copy_answer(copying: Result<Copying, Refusal>) -> Result<BenchAnswer, Refusal>
    ensures { result ≡ copy_answer copying }
{
    match copying {
        Ok(Copying::Event(_)) => Ok(BenchAnswer::Done),
        Ok(Copying::Empty) => Ok(BenchAnswer::Empty),
        Ok(Copying::Moved) => Ok(BenchAnswer::Moved),
        Err(refusal) => Err(refusal),
    }
}

fn confirm_answer(confirming: Result<Confirming, Refusal>) -> Result<BenchAnswer, Refusal>
    ensures { result ≡ confirm_answer confirming }
{
    match confirming {
        Ok(Confirming::Done) => Ok(BenchAnswer::Done),
        Ok(Confirming::Again) => Ok(BenchAnswer::Again),
        Err(refusal) => Err(refusal),
    }
}

pub fn bench_copy(ring: &[u8], record: &mut [u8], slip: &mut [u8], out: &mut [u8]) -> u32
    ensures answer { result ≡ (copy_call ring.now «record».old slip.old out.old).answer }
    ensures kept { «record».new ≡ (copy_call ring.now «record».old slip.old out.old).kept }
    ensures written { slip.new ≡ (copy_call ring.now «record».old slip.old out.old).slip }
    ensures bytes { out.new ≡ (copy_call ring.now «record».old slip.old out.old).out }
{
    if record.len() != 32 {
        return answer_number(Ok(BenchAnswer::RecordLength));
    }
    if slip.len() != 32 {
        return answer_number(Ok(BenchAnswer::RecordLength));
    }
    let reader = reader_at(record);
    let copied = slip::copy::copy(ring, reader, out);
    keep_reader(record, copied.reader);
    let copying = copied.answer;
    keep_copied(slip, copying);
    answer_number(copy_answer(copying))
}

pub fn bench_confirm(ring: &[u8], record: &mut [u8], slip: &[u8]) -> u32
    ensures answer { result ≡ (confirm_call ring.now «record».old slip.now).answer }
    ensures kept { «record».new ≡ (confirm_call ring.now «record».old slip.now).kept }
{
    if record.len() != 32 {
        return answer_number(Ok(BenchAnswer::RecordLength));
    }
    if slip.len() != 32 {
        return answer_number(Ok(BenchAnswer::RecordLength));
    }
    let reader = reader_at(record);
    let confirmed = slip::confirm::confirm(ring, reader, slip_at(slip));
    keep_reader(record, confirmed.reader);
    let confirming = confirmed.answer;
    answer_number(confirm_answer(confirming))
}
