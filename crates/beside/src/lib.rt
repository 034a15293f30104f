// RULES 7.16, 7.17: what is promised of a reader that copies and confirms beside a live writer.
#![tactic(auto)]
