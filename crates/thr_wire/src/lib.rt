//! Where bytes come from and go to: sources and sinks with a count of their faults, and whole reads and writes.
#![tactic(auto)]

pub mod fault;
pub mod good;
pub mod mem;
pub mod standard;
pub mod whole;
pub mod wire;
