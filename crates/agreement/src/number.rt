// How far a number and bytes agree, the number's lowest byte first: at once where they agree throughout, else byte by byte. No array is made of the number.
ghost use Rattle.std.specs.Prelude.{◌≡◌, ◌≤◌, length};
ghost use Rattle.agreement.specs.Word.{word_of};
ghost use Rattle.difference_rules.specs.Difference.{agreeing};

use word::number::Word;

fn agree_byte_by_byte(value: u64, bytes: &[u8]) -> usize
    ensures { result ≡ agreeing (word_of value) bytes.now }
{
    let common = bytes.len().min(8);
    let mut rest = value;
    for i in 0..common {
        if bytes[i] != (rest % 256) as u8 {
            return i;
        }
        rest /= 256;
    }
    common
}

// How many of the number's eight bytes the first bytes are.
pub fn agree_number(value: u64, bytes: &[u8]) -> usize
    ensures count { result ≡ agreeing (word_of value) bytes.now }
    ensures within { (result ≤ 8) × (result ≤ length bytes.now) }
{
    if 8 <= bytes.len() && u64::get(bytes, 0) == value {
        return 8;
    }
    agree_byte_by_byte(value, bytes)
}
