//! Walks over a list's blocks that change marks of blocks and no neighbour.
#![tactic(auto)]

pub mod strike;
#[cfg(test)]
mod tests;
