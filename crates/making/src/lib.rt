//! Makings: contents of any kind from recipes, appended to a lent table of words.
#![tactic(auto)]

pub mod kinds;
pub mod make;
pub mod packing;
pub mod refusal;
pub mod word_table;
