//! Waits over several objects: what a cancel does to them call by call, and who waits as a writer after calls on conditions.
//! The laws are functions that do nothing and whose contracts are the laws.
#![tactic(auto)]

pub mod laws;
