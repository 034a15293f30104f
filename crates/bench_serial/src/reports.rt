// What a report adds to the sum.
ghost use Rattle.std.specs.Prelude.{◌≡◌, ◌%◌, ◌^◌, ◌≤◌, length};
ghost use Rattle.serial_rules.specs.Feed.{told_by};
ghost use Rattle.serial_rules.specs.declared.Report.TheVariants.{Head};
ghost use Rattle.bench_serial.specs.Listened.{sum_of, stride_number};

use serial_rules::Report;
use word::number::Word;

pub fn report_number(report: Report, piece: &[u8], kept: [u8; 32]) -> u64
    requires { report ≡ Head → 32 ≤ length piece.now }
    ensures { result ≡ sum_of (told_by report piece.now kept) % 2 ^ 64 }
{
    match report {
        Report::Nothing => 0,
        Report::Head => u64::get(piece, 8),
        Report::KeptHead => u64::get(&kept, 8),
        Report::Stretch(at, size) => at.wrapping_add(size),
        Report::Counts(handed, missed) => handed.wrapping_add(missed),
        Report::Fault(fault, place) => faults::fault_number(fault).wrapping_add(place),
        Report::Refused => 0,
    }
}

// A stride tells nothing else.
pub fn stride_number(report: Report, piece: &[u8]) -> u64
    requires { report ≡ Head → 32 ≤ length piece.now }
    ensures { result ≡ stride_number report piece.now % 2 ^ 64 }
{
    match report {
        Report::Head => u64::get(piece, 8),
        Report::Stretch(place, size) => place.wrapping_add(size),
        Report::Nothing => 0,
        Report::KeptHead => 0,
        Report::Counts(_, _) => 0,
        Report::Fault(_, _) => 0,
        Report::Refused => 0,
    }
}
