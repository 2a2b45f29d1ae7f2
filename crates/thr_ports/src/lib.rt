//! What those who port code to the thread service can rely on, as laws that follow from the laws on histories.
#![tactic(auto)]

pub mod examples;
pub mod laws;
