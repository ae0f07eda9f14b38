//! A script of calls, one to a line, and the transcript of its answers.
#![tactic(auto)]

pub mod answer;
pub mod pieces;
pub mod script;
