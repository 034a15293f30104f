// What the calls of the console firmware answer: numbers, and the writer's record as bytes.
#![tactic(auto)]
