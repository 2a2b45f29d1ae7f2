//! The thread machine: its state, and the history that led to it.
#![tactic(auto)]

pub mod book;
mod memory;
mod opening;
mod ready;
mod stepping;
mod stopping;
mod writing;
