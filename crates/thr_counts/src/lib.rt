//! Laws on what is counted in histories: numbers, arrivals, depths, scopes and stack sizes fit the words of the program.
#![tactic(auto)]

pub mod laws;
