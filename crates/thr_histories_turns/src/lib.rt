//! Worked histories of turns: policies and slices, unwindings, routines that others run, errors, pipes, and several processors. Each
//! is a function that does nothing and whose contract is the example, as in `thr_histories`.
#![tactic(auto)]

pub mod faults;
pub mod joins;
pub mod pipe_waiters;
pub mod policies;
pub mod processors;
pub mod routines;
pub mod unwindings;
pub mod variables;
