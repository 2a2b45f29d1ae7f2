//! A thread owns its mutex again where its wait on a condition ends, in every history of the machine. So the law of cancels holds
//! with all its parts. The laws are functions that do nothing and whose contracts are the laws.
#![tactic(auto)]

pub mod examples;
pub mod laws;
