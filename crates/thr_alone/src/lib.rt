//! What holds of a machine of one processor alone: it leaves no choice.
#![tactic(auto)]

pub mod laws;
