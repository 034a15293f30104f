// No code: two rings of one processor number, emptied at the same moments, are compared in specs/, and proofs/ proves what is said there of their bytes.
#![tactic(auto)]
