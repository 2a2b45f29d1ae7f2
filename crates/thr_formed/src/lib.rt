//! Journals of legal histories have the form of journals. The laws are functions that do nothing and whose contracts are the laws.
#![tactic(auto)]

pub mod laws;
