//! The writer of weak-link records, which the reader gives back.
#![tactic(auto)]

mod encode;
pub mod fault;
mod flags;
mod layout;
pub mod round_trip;
pub mod writer;
