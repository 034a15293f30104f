// No code: what the operations do to rings whose bytes are written out is said in specs/ and proved in proofs/.
#![tactic(auto)]
