//! Reports, verdicts, made scripts and journals whose lines have their form, as definitions. The laws on them and
//! worked cases of them are functions that do nothing and whose contracts are the laws and the cases.
#![tactic(auto)]

pub mod examples;
pub mod laws;
