// The refusals by their numbers.
#![tactic(auto)]

ghost use Rattle.std.specs.Prelude.{◌≡◌};
ghost use Rattle.table_rules.specs.Refusals.{paper_number};

use table_rules::Refusal;

// 5.3: a refusal's number. A match and no `as`: one refusal bears values.
pub fn paper_number(refusal: Refusal) -> u8
    ensures { result ≡ paper_number refusal }
{
    match refusal {
        Refusal::Short => 1,
        Refusal::Magic => 2,
        Refusal::Version => 3,
        Refusal::Layout => 4,
        Refusal::Length => 5,
        Refusal::Position => 6,
        Refusal::Writer => 7,
        Refusal::Spent => 8,
        Refusal::Far => 9,
        Refusal::Damaged(_) => 10,
        Refusal::Disagree => 11,
        Refusal::Reader => 13,
        Refusal::Out => 14,
        Refusal::Generation => 15,
        Refusal::Size => 16,
        Refusal::Record => 17,
    }
}
