//! The words of a line.
#![tactic(auto)]

pub mod fault;
pub mod laws;
pub mod lex;
pub mod line;
pub mod words;
