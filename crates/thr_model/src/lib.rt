//! The thread machine as definitions: what a legal history of a script is. The laws on them are functions that do nothing
//! and whose contracts are the laws.
#![tactic(auto)]

pub mod laws;
