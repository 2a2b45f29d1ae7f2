//! The operators of expressions.
#![tactic(auto)]

pub mod compute;
