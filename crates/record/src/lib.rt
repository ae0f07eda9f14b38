//! The weak-link record: its format, and a reader that takes every form of it.
#![tactic(auto)]

pub mod fault;
mod flags;
pub mod name;
pub mod reader;
