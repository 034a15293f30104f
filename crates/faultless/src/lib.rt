// RULES 11.4, 11.6: what is promised of files that are read as recordings.
#![tactic(auto)]
