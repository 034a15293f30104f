// What a script has made so far beside the bytes of its buffers, and how an answer is said.
#![tactic(auto)]

pub mod adler;
pub mod room;
pub mod say;
pub mod state;
