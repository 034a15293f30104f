// What a line of a script is made of: fields, numbers and bytes read from text, and bytes written as text.
#![tactic(auto)]

pub mod field;
pub mod hex;
pub mod number;
