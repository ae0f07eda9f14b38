//! Several lists in one table of blocks: where an id and an index fall, and what a cut, a new block and a removal leave.
#![tactic(auto)]

pub mod branch;
pub mod cut;
pub mod gap;
