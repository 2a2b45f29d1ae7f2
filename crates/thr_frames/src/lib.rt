//! Stacks of threads: what a thread has still to do, the quiet parts of its turns, and its part of calls.
#![tactic(auto)]

pub mod reply;
mod run;
mod shared;
pub mod stack;
pub mod stopped;
mod stores;
