//! What `verify` answers on what `run` writes. The law is a function that does nothing and whose contract is the law.
#![tactic(auto)]

pub mod laws;
