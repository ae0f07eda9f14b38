//! The unsigned LEB128 numbers of the DWARF standard, written in their shortest form and read byte by byte.
#![tactic(auto)]

pub mod fault;
pub mod field;
pub mod reader;
pub mod writer;
