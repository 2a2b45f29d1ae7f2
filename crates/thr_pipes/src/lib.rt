//! Pipes with their items, and the writers that wait at them (docs/machine.md, "Pipes").
#![tactic(auto)]

pub mod laws;
mod opening;
mod pipe;
mod pipes;
mod replies;
mod waits;

pub use pipes::Pipes;
