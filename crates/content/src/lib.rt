//! Contents: what a content kind means, its laws, and the kinds that are supplied.
#![tactic(auto)]

pub mod clip_run;
pub mod content;
pub mod cutting;
pub mod gap;
pub mod mark;
pub mod mix;
pub mod run;
pub mod text_run;
