// The calls of `bench_slips` as bench/ links them, each under the clauses of the call itself.
#![tactic(auto)]

ghost use Rattle.std.specs.Prelude.{◌≡◌};
ghost use Rattle.bench_slips.specs.Slips.{copy_call, confirm_call};

#[unsafe(no_mangle)]
pub extern "C" fn bench_copy(ring: &[u8], record: &mut [u8], slip: &mut [u8], out: &mut [u8]) -> u32
    ensures answer { result ≡ (copy_call ring.now «record».old slip.old out.old).answer }
    ensures kept { «record».new ≡ (copy_call ring.now «record».old slip.old out.old).kept }
    ensures written { slip.new ≡ (copy_call ring.now «record».old slip.old out.old).slip }
    ensures bytes { out.new ≡ (copy_call ring.now «record».old slip.old out.old).out }
{
    bench_slips::bench_copy(ring, record, slip, out)
}

#[unsafe(no_mangle)]
pub extern "C" fn bench_confirm(ring: &[u8], record: &mut [u8], slip: &[u8]) -> u32
    ensures answer { result ≡ (confirm_call ring.now «record».old slip.now).answer }
    ensures kept { «record».new ≡ (confirm_call ring.now «record».old slip.now).kept }
{
    bench_slips::bench_confirm(ring, record, slip)
}
