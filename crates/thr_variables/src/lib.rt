//! Laws on shared variables in the histories of scripts that keep the rules: those that have a value are the declared ones.
#![tactic(auto)]

pub mod laws;
