//! Once blocks whose routines run, in every history of the machine: each fits tables by names. The laws are functions that do
//! nothing and whose contracts are the laws.
#![tactic(auto)]

pub mod laws;
