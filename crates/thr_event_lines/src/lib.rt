//! How many lines an event writes at most, in every history of the machine. The laws are functions that do nothing and whose
//! contracts are the laws.
#![tactic(auto)]

pub mod laws;
