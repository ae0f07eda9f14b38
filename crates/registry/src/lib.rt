//! What a document keeps beside its blocks and words: the names of its open lists, and its clients with their counts.
#![tactic(auto)]

pub mod clients;
mod fixed_list;
pub mod links;
pub mod name;
pub mod names;
