// RULES 10.8, 10.9: recordings checked by hand.
#![tactic(auto)]
