// The call of `bench_serial` as bench/ links it, under the clause of the call itself.
#![tactic(auto)]

ghost use Rattle.std.specs.Prelude.{◌≡◌};
ghost use Rattle.bench_serial.specs.Listened.{listened};

#[unsafe(no_mangle)]
pub extern "C" fn bench_listen(file: &[u8], size: u64) -> u64
    ensures { result ≡ listened size file.now }
{
    bench_serial::bench_listen(file, size)
}
