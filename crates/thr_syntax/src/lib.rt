//! Scripts as trees, and journals as values.
#![tactic(auto)]

pub mod copy;
pub mod dce;
pub mod expr;
pub mod form;
pub mod journal;
pub mod laws;
pub mod shared;
pub mod tree;
