// No code: lines 1 to 10 of the sums done by hand are said in specs/ and proved in proofs/, of the ring's bytes.
#![tactic(auto)]
