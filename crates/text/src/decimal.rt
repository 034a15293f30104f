// Numbers in decimal.
ghost use Rattle.std.specs.Prelude.{◌+◌, ◌≤◌, length, take};
ghost use Rattle.text.specs.Decimal.{decimal, Numeral};
ghost use Rattle.text.specs.Put.{Put, Front};

// By recursion on the quotient by ten: what stands in front of the last digit is put first.
#[tactic(auto, using(crate::proofs::Numerals::decimal_length_more, crate::proofs::Numerals::decimal_some))]
pub fn put_number(n: u64, out: &mut [u8], at: usize) -> usize
    requires { at + length (decimal n) ≤ length out.old }
    ensures { Put out.old at (decimal n) out.new result }
{
    if n < 10 {
        out[at] = b'0' + n as u8;
        at + 1
    } else {
        let last = put_number(n / 10, out, at);
        out[last] = b'0' + (n % 10) as u8;
        last + 1
    }
}

// Twenty bytes have room for every u64, so this one asks nothing of its caller.
pub fn number_text(n: u64, out: &mut [u8; 20]) -> usize
    ensures front { Front out.old (decimal n) out.new result }
    ensures numeral { Numeral n (take result out.new) }
{
    put_number(n, out, 0)
}
