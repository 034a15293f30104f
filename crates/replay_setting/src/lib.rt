// The lines that set a script's buffers and records, and show bytes.
#![tactic(auto)]

pub mod memory;
pub mod records;
