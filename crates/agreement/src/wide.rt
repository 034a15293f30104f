// Bytes at one place of two slices compared as numbers of eight bytes. What isn't alike is left to narrower comparisons.
ghost use Rattle.std.specs.Prelude.{◌≡◌, true, ◌+◌, ◌*◌, ◌≤◌, length};
ghost use Rattle.word_rules.specs.Number.{number};

use word::number::Word;

// So many words, one after the other: since their number is known to the compiler, it makes no loop of it.
pub fn are_same<const WORDS: usize>(a: &[u8], b: &[u8], at: usize) -> bool
    requires { (at + WORDS * 8 ≤ length a.now) × (at + WORDS * 8 ≤ length b.now) }
    ensures { result ≡ true → number a.now at (WORDS * 8) ≡ number b.now at (WORDS * 8) }
{
    for word in 0..WORDS {
        if u64::get(a, at + word * 8) != u64::get(b, at + word * 8) {
            return false;
        }
    }
    true
}
