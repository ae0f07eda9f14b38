//! The table of blocks: lists of blocks that are threaded through one slice of records by left and right neighbours.
#![tactic(auto)]

pub mod block;
pub mod gap;
pub mod link_set;
pub mod lookup;
pub mod splice;
mod walk;
