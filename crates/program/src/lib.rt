// What programs share.
#![tactic(auto)]

pub mod reply;
pub mod room;
