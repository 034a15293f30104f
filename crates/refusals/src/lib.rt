// No code: which answer each operation gives, and that a refusal changes nothing, is said in specs/ and proved in proofs/.
#![tactic(auto)]
