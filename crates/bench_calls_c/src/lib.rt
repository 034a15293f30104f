// The calls of `bench_calls` as bench/ links them, each under the clauses of the call itself.
#![tactic(auto)]

ghost use Rattle.std.specs.Prelude.{◌≡◌, ◌%◌, ◌^◌};
ghost use Rattle.verification_rules.specs.Verify.{verified};
ghost use Rattle.bench_calls.specs.Calls.{read_call, swap_call, record_call};
ghost use Rattle.bench_calls.specs.Checked.{verified_number};

#[unsafe(no_mangle)]
pub extern "C" fn bench_read(ring: &[u8], record: &mut [u8], out: &mut [u8]) -> u32
    ensures answer { result ≡ (read_call ring.now «record».old out.old).answer }
    ensures kept { «record».new ≡ (read_call ring.now «record».old out.old).kept }
    ensures bytes { out.new ≡ (read_call ring.now «record».old out.old).out }
{
    bench_calls::bench_read(ring, record, out)
}

#[unsafe(no_mangle)]
pub extern "C" fn bench_swap(old: &mut [u8], new: &mut [u8], record: &mut [u8]) -> u32
    ensures answer { result ≡ (swap_call old.old new.old «record».old).answer }
    ensures left { old.new ≡ (swap_call old.old new.old «record».old).old }
    ensures made { new.new ≡ (swap_call old.old new.old «record».old).new }
    ensures kept { «record».new ≡ (swap_call old.old new.old «record».old).kept }
{
    bench_calls::bench_swap(old, new, record)
}

#[unsafe(no_mangle)]
pub extern "C" fn bench_record(ring: &[u8], placed: u64, out: &mut [u8]) -> u32
    ensures answer { result ≡ (record_call ring.now placed out.old).answer }
    ensures bytes { out.new ≡ (record_call ring.now placed out.old).out }
{
    bench_calls::bench_record(ring, placed, out)
}

#[unsafe(no_mangle)]
pub extern "C" fn bench_verify(ring: &[u8], file: &[u8]) -> u64
    ensures { result ≡ verified_number (verified ring.now file.now) % 2 ^ 64 }
{
    bench_calls::checking::bench_verify(ring, file)
}
