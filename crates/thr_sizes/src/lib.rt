//! How many lines a legal history has, and how many bytes its lines and its journal's text take. The laws are functions that do
//! nothing and whose contracts are the laws.
#![tactic(auto)]

pub mod laws;
