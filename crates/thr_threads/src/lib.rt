//! Attribute cells and the records of threads, and the calls on them (docs/machine.md, "Thread records", "Attribute cells"
//! and "Cancels").
#![tactic(auto)]

mod attributes;
mod cancels;
mod cells;
mod numbers;
mod records;
mod scheduling;
mod threads;

pub use threads::Threads;
