//! Conditions, and waits on them or for a time: who waits with which mutex, and whose time has come.
#![tactic(auto)]

mod conds;
mod due;
pub mod laws;
mod replies;
mod waits;

pub use conds::Conds;
