// The check of a recording as C can call it: 0 where it passes, and from 2,000 on the first place that differs.
ghost use Rattle.std.specs.Prelude.{◌≡◌, ◌%◌, ◌^◌};
ghost use Rattle.verification_rules.specs.Verify.{verified};
ghost use Rattle.bench_calls.specs.Checked.{compared_number, verified_number};

use console::answer::refusal_number;
use verification::verify;

fn compared_number(difference: Option<u64>) -> u64
    ensures { result ≡ compared_number difference % 2 ^ 64 }
{
    match difference {
        None => 0,
        Some(place) => 2000u64.wrapping_add(place),
    }
}

pub fn bench_verify(ring: &[u8], file: &[u8]) -> u64
    ensures { result ≡ verified_number (verified ring.now file.now) % 2 ^ 64 }
{
    match verify(ring, file) {
        Ok(difference) => compared_number(difference),
        Err(refusal) => refusal_number(refusal) as u64,
    }
}
