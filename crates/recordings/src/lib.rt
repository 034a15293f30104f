// RULES 10.2, 10.3, 10.5, 10.6: what is promised of recordings.
#![tactic(auto)]
