//! Which thread runs on a processor, told from the seats of threads.
#![tactic(auto)]

pub mod laws;
