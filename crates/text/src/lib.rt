// Text put into a lent buffer. Each writer asks for exactly the room of its text, and says by `Put` what it wrote and where the next text goes.
// No `Display`: it says nothing of room, nor of each byte of the buffer.
#![tactic(auto)]

pub mod decimal;
pub mod phrase;
pub mod put;
pub mod room;
