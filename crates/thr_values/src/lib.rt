//! The values that every layer speaks of: numbers of threads, lines and names, exceptions, replies, and the lines of a
//! history.
#![tactic(auto)]

pub mod call;
pub mod event;
pub mod exception;
pub mod history;
pub mod name;
pub mod number;
pub mod reply;
pub mod scheduling;
