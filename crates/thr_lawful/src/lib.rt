//! The laws that every legal history meets, as one.
#![tactic(auto)]

pub mod laws;
