//! Each call that waits is answered once, in every legal history. The laws are functions that do nothing and whose contracts
//! are the laws.
#![tactic(auto)]

pub mod laws;
