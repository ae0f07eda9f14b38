//! How the script language spells ids, sources and contents: as text and back.
#![tactic(auto)]

pub mod side;
pub mod wanted;
