// Bytes as they are.
ghost use Rattle.std.specs.Prelude.{◌+◌, ◌≤◌, [], ◌∷◌, length};
ghost use Rattle.text.specs.Put.{Put};

use word::run::copy;

pub fn put_byte(byte: u8, out: &mut [u8], at: usize) -> usize
    requires { at + 1 ≤ length out.old }
    ensures { Put out.old at (byte ∷ []) out.new result }
{
    out[at] = byte;
    at + 1
}

pub fn put_bytes(word: &[u8], out: &mut [u8], at: usize) -> usize
    requires { at + length word.now ≤ length out.old }
    ensures { Put out.old at word.now out.new result }
{
    copy(out, at, word);
    at + word.len()
}
