// Why an event is bad, as 10 tells it: which reasons there are, who gives which, and that 10 is given where it was before it bore one.
#![tactic(auto)]
