// How far two stretches of bytes agree: blocks as far as these are alike, then words, then bytes, so that all but the end is told by wide comparisons.
#![tactic(auto)]

ghost use Rattle.std.specs.Prelude.{◌≡◌, ◌<◌, ◌≤◌, min, length};
ghost use Rattle.difference_rules.specs.Difference.{agreeing};
ghost use Rattle.difference_rules.proofs.Facts.{Alike};

use crate::wide::are_same;

pub mod number;
pub mod wide;

// Past so many words at once, as long as these are alike: nothing is counted that a `for` could count.
fn past_words<const WORDS: usize>(a: &[u8], b: &[u8], common: usize, from: usize) -> usize
    requires { (0 < WORDS) × (WORDS < 256) × (common ≤ length a.now) × (common ≤ length b.now) × (from ≤ common) × Alike a.now b.now from }
    ensures { (result ≤ common) × Alike a.now b.now result }
{
    let mut i = from;
    while WORDS * 8 <= common - i && are_same::<WORDS>(a, b, i) {
        i += WORDS * 8;
    }
    i
}

fn past_bytes(a: &[u8], b: &[u8], common: usize, from: usize) -> usize
    requires { (common ≡ min (length a.now) (length b.now)) × (from ≤ common) × Alike a.now b.now from }
    ensures { result ≡ agreeing a.now b.now }
{
    for i in from..common {
        if a[i] != b[i] {
            return i;
        }
    }
    common
}

// How many of their first bytes are the same.
#[tactic(auto, using(difference_rules::proofs::Agreeing::agreeing_within))]
pub fn agree(a: &[u8], b: &[u8]) -> usize
    ensures count { result ≡ agreeing a.now b.now }
    ensures within { (result ≤ length a.now) × (result ≤ length b.now) }
{
    let common = a.len().min(b.len());
    let blocks = past_words::<16>(a, b, common, 0);
    let words = past_words::<1>(a, b, common, blocks);
    past_bytes(a, b, common, words)
}
