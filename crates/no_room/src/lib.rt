// Refusal 12, NO ROOM, which the table had once: it was never given, and nothing else is answered now that it has gone.
#![tactic(auto)]
