//! The first pass: the lines of a text, each by itself.
#![tactic(auto)]

pub mod form;
pub mod laws;
pub mod scan;
pub mod slots;
