// A slip in 32 bytes: position, size, sequence, tail seen.
ghost use Rattle.std.specs.Prelude.{◌≡◌, length};
ghost use Rattle.word_rules.specs.Fields.{put_all};
ghost use Rattle.bench_slips.specs.Slips.{held_slip, slip_fields, slip_after};

use slip_rules::{Copying, Slip};
use table_rules::Refusal;
use word::number::Word;

pub fn slip_at(bytes: &[u8]) -> Slip
    requires { length bytes.now ≡ 32 }
    ensures { result ≡ held_slip bytes.now }
{
    Slip {
        position: u64::get(bytes, 0),
        size: u64::get(bytes, 8),
        sequence: u64::get(bytes, 16),
        tail_seen: u64::get(bytes, 24),
    }
}

fn keep_slip(bytes: &mut [u8], slip: Slip)
    requires { length bytes.old ≡ 32 }
    ensures { bytes.new ≡ put_all bytes.old (slip_fields slip) }
{
    u64::put(bytes, 0, slip.position);
    u64::put(bytes, 8, slip.size);
    u64::put(bytes, 16, slip.sequence);
    u64::put(bytes, 24, slip.tail_seen);
}

// With no event the bytes stay.
pub fn keep_copied(bytes: &mut [u8], copying: Result<Copying, Refusal>)
    requires { length bytes.old ≡ 32 }
    ensures { bytes.new ≡ slip_after bytes.old copying }
{
    match copying {
        Ok(Copying::Event(slip)) => keep_slip(bytes, slip),
        Ok(Copying::Empty) => {}
        Ok(Copying::Moved) => {}
        Err(_) => {}
    }
}
