//! What the trees of scripts that keep the rules hold.
#![tactic(auto)]

pub mod examples;
pub mod laws;
