//! How wide the lines of a journal are, and how long its text is.
#![tactic(auto)]

pub mod examples;
pub mod laws;
