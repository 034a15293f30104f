// Numbers with what stands beside them in a line.
ghost use Rattle.std.specs.Prelude.{◌+◌, ◌≤◌, length};
ghost use Rattle.text.specs.Put.{Put};
ghost use Rattle.text.specs.Phrase.{numbered, worded};

use crate::decimal::put_number;
use crate::put::{put_byte, put_bytes};

#[tactic(auto, unfolding(crate::specs::Phrase::numbered))]
pub fn put_numbered(n: u64, byte: u8, out: &mut [u8], at: usize) -> usize
    requires { at + length (numbered n byte) ≤ length out.old }
    ensures { Put out.old at (numbered n byte) out.new result }
{
    let end = put_number(n, out, at);
    put_byte(byte, out, end)
}

#[tactic(auto, unfolding(crate::specs::Phrase::worded))]
pub fn put_worded(word: &[u8], n: u64, out: &mut [u8], at: usize) -> usize
    requires { at + length (worded word.now n) ≤ length out.old }
    ensures { Put out.old at (worded word.now n) out.new result }
{
    let end = put_bytes(word, out, at);
    put_number(n, out, end)
}
