// Which recordings pass the check against a ring. Statements and proofs, no code.
#![tactic(auto)]
