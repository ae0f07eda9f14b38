//! The texts of a script's answers.
#![tactic(auto)]

pub mod blocks;
pub mod calls;
pub mod link_set;
pub mod refusal;
