//! The limits of a script.
#![tactic(auto)]

pub mod laws;
pub mod limits;
mod width;
