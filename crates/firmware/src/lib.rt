// No code: what the second demand promises of the calls that the console firmware makes is said in specs/ and proved in proofs/.
#![tactic(auto)]
