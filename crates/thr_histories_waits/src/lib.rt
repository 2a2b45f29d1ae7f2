//! Worked histories of waits: how they end, cancels of threads that wait, and cancels between steps. Each is a function that does
//! nothing and whose contract is the example, as in `thr_histories`.
#![tactic(auto)]

pub mod asynchrony;
pub mod conditions;
pub mod waiters_by_rank;
pub mod waits;
