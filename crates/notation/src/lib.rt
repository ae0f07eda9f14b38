//! The words of the script language, and decimal and hexadecimal numbers, as text and back.
#![tactic(auto)]

pub mod hex;
pub mod numeral;
pub mod text;
pub mod words;
