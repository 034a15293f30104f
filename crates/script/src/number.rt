// Decimal numbers: digits alone, no leading zero but 0 itself, up to 2^64 - 1.
ghost use Rattle.std.specs.Prelude.{◌≡◌, ◌≤◌, IfSome};
ghost use Rattle.script.specs.Number.{digit_on, leading_zero, read_number, within_most};

// n with one digit more behind it.
#[tactic(auto, unfolding(crate::specs::Number::digit_on))]
fn digit_on(n: u64, byte: u8) -> Option<u64>
    ensures { result ≡ digit_on n byte }
{
    if !byte.is_ascii_digit() {
        return None;
    }
    n.checked_mul(10)?.checked_add((byte - b'0') as u64)
}

#[tactic(auto, unfolding(crate::specs::Number::leading_zero))]
fn leading_zero(field: &[u8]) -> bool
    ensures { result ≡ leading_zero field.now }
{
    field.len() > 1 && field[0] == b'0'
}

#[tactic(auto, using(crate::proofs::Numbers::read_bad), unfolding(crate::specs::Number::read_number))]
pub fn number(field: &[u8]) -> Option<u64>
    ensures { result ≡ read_number field.now }
{
    if field.is_empty() || leading_zero(field) {
        return None;
    }
    let mut n = 0;
    for byte in field {
        n = digit_on(n, *byte)?;
    }
    Some(n)
}

// A number of at most `most`.
#[tactic(auto, unfolding(crate::specs::Number::within_most))]
pub fn number_to(field: &[u8], most: u32) -> Option<usize>
    ensures value { result ≡ within_most most (read_number field.now) }
    ensures bound { IfSome result (λ n. n ≤ most) }
{
    let n = number(field)?;
    if n > most as u64 {
        return None;
    }
    Some(n as usize)
}
