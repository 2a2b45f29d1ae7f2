//! What a thread has still to do, and the steps of it that no other thread sees. This crate has definitions, and worked
//! examples of them.
#![tactic(auto)]

pub mod laws;
pub mod rows;
pub mod unwinding;
