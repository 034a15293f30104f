// RULES 11.8 to 11.11: what is promised of a recording that arrives in pieces.
#![tactic(auto)]
