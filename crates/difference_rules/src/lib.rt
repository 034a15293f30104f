// RULES 10.9: how two lists of bytes compare.
#![tactic(auto)]
