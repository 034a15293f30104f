// No code: what the operations promise over whole histories of calls is said in specs/ and proved in proofs/, of the ring's bytes.
#![tactic(auto)]
