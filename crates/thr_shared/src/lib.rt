//! The values of shared variables.
#![tactic(auto)]

mod shared;

pub use shared::SharedVariables;
