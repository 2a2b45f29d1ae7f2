//! The routes of unwindings: in each legal history of a script that keeps the rules each unwinding takes its route.
#![tactic(auto)]

pub mod laws;
