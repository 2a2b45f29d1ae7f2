//! The stacks of threads, by the numbers of their threads (docs/machine.md, "What is left to do").
#![tactic(auto)]

pub mod laws;
mod stacks;

pub use stacks::Stacks;
