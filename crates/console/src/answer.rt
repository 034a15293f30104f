// The one number that a call answers: 0 done, 1 to 17 but 10, or 101 to 107, refused, 20 DROPPED, 21 done with wake.
ghost use Rattle.std.specs.Prelude.{◌≡◌};
ghost use Rattle.console_rules.specs.Console.{call_number, answered_number, emitted_number};

use emit_rules::Outcome;
use table::paper_number;
use table_rules::Refusal;

pub fn refusal_number(refusal: Refusal) -> u32
    ensures { result ≡ call_number refusal }
{
    if let Refusal::Damaged(damage) = refusal {
        return 100 + damage.reason as u32;
    }
    paper_number(refusal) as u32
}

pub fn answered_number<T: Drop>(answer: Result<T, Refusal>) -> u32
    ensures { result ≡ answered_number answer }
{
    match answer {
        Ok(_) => 0,
        Err(refusal) => refusal_number(refusal),
    }
}

pub fn emitted_number(outcome: Result<Outcome, Refusal>) -> u32
    ensures { result ≡ emitted_number outcome }
{
    match outcome {
        Ok(Outcome::Done) => 0,
        Ok(Outcome::Wake) => 21,
        Ok(Outcome::Dropped) => 20,
        Err(refusal) => refusal_number(refusal),
    }
}
