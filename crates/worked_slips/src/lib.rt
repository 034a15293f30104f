// RULES 7.13 to 7.17: copying and confirming on rings whose bytes are written out.
#![tactic(auto)]
