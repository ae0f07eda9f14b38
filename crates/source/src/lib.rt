//! What a quote names: two sides, each anchored at an id or open on a list.
#![tactic(auto)]

pub mod id;
pub mod sticky_index;
pub mod weak;
