//! A kind that the supplied crates do not know, and makings of kinds that this crate does not know.
#![tactic(auto)]

pub mod echo;
pub mod sequence;
