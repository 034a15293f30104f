// The faults of a recording by their numbers.
#![tactic(auto)]

ghost use Rattle.std.specs.Prelude.{◌≡◌};
ghost use Rattle.reading_rules.specs.Parts.{fault_number};

use reading_rules::Fault;

// 11.3: a fault's number.
pub fn fault_number(fault: Fault) -> u64
    ensures { result ≡ fault_number fault }
{
    fault as u64
}
