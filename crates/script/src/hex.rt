// Bytes as pairs of the digits 0-9a-f, and `-` for none.
ghost use Rattle.std.specs.Prelude.{◌+◌, ◌≤◌, ◌≡◌, true, length, IfSome};
ghost use Rattle.std.proofs.lemmas.List.Edits.{sets};
ghost use Rattle.text.specs.Put.{Put};
ghost use Rattle.script.specs.Hex.{value_of, all_hex, spells, unhex, hex_count, hex_bytes, hex_digit, hex_text, hex_field};

use text::put::put_byte;

// The value of a digit.
#[tactic(auto, unfolding(crate::specs::Hex::value_of))]
fn digit_value(byte: u8) -> Option<u8>
    ensures value { result ≡ value_of byte }
    ensures bound { IfSome result (λ value. value ≤ 15) }
{
    match byte {
        b'0'..=b'9' => Some(byte - b'0'),
        b'a'..=b'f' => Some(byte - b'a' + 10),
        _ => None,
    }
}

fn all_digits(field: &[u8]) -> bool
    ensures { result ≡ all_hex field.now }
{
    field.iter().all(|byte| digit_value(*byte).is_some())
}

// Whether a field is one to `room` pairs of digits.
#[tactic(auto, unfolding(crate::specs::Hex::spells))]
fn is_pairs(field: &[u8], room: usize) -> bool
    ensures { result ≡ spells room field.now }
{
    !field.is_empty() && field.len() % 2 == 0 && field.len() / 2 <= room && all_digits(field)
}

// The bytes of a field of pairs, to the front of `out`. By the index: the library has no law on `iter_mut` beside `chunks`. All are digits, and 0 stands for
// what isn't one: an `unwrap` is a way out of the loop, which the compiler then takes byte by byte, in twice the time.
fn put_pairs(field: &[u8], out: &mut [u8])
    requires { spells (length out.old) field.now ≡ true }
    ensures { out.new ≡ sets out.old 0 (unhex field.now) }
{
    for i in 0..field.len() / 2 {
        let high = digit_value(field[2 * i]).unwrap_or(0);
        let low = digit_value(field[2 * i + 1]).unwrap_or(0);
        out[i] = high * 16 + low;
    }
}

// Puts the bytes that a field spells to the front of `out` and answers how many. A field that spells none, or more than there is room for, writes nothing.
#[tactic(auto, unfolding(crate::specs::Hex::is_dash, crate::specs::Hex::hex_count, crate::specs::Hex::hex_bytes))]
pub fn hex(field: &[u8], out: &mut [u8]) -> Option<usize>
    ensures count { result ≡ hex_count (length out.old) field.now }
    ensures bound { IfSome result (λ count. count ≤ length out.old) }
    ensures bytes { out.new ≡ sets out.old 0 (hex_bytes (length out.old) field.now) }
{
    if matches!(field, [b'-']) {
        return Some(0);
    }
    if !is_pairs(field, out.len()) {
        return None;
    }
    put_pairs(field, out);
    Some(field.len() / 2)
}

#[tactic(auto, unfolding(crate::specs::Hex::hex_digit))]
fn digit_of(value: u8) -> u8
    requires { value ≤ 15 }
    ensures { result ≡ hex_digit value }
{
    if value < 10 {
        b'0' + value
    } else {
        b'a' + (value - 10)
    }
}

// Two digits for each byte.
fn put_text(bytes: &[u8], out: &mut [u8], at: usize) -> usize
    requires { at + length (hex_text bytes.now) ≤ length out.old }
    ensures { Put out.old at (hex_text bytes.now) out.new result }
{
    let mut next = at;
    for byte in bytes {
        let low = put_byte(digit_of(*byte / 16), out, next);
        next = put_byte(digit_of(*byte % 16), out, low);
    }
    next
}

#[tactic(auto, unfolding(crate::specs::Hex::hex_field))]
pub fn put_hex(bytes: &[u8], out: &mut [u8], at: usize) -> usize
    requires { at + length (hex_field bytes.now) ≤ length out.old }
    ensures { Put out.old at (hex_field bytes.now) out.new result }
{
    if bytes.is_empty() {
        return put_byte(b'-', out, at);
    }
    put_text(bytes, out, at)
}
