// No code: which bytes of a ring the operations look at is said in specs/ and proved in proofs/, of any bytes.
#![tactic(auto)]
