//! What a line of a script asks for.
#![tactic(auto)]

pub mod call;
mod contents;
pub mod line;
mod parts;
