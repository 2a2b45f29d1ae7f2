//! Mutexes, their attribute cells and the global lock.
#![tactic(auto)]

mod held;
mod locks;

pub use locks::Locks;
