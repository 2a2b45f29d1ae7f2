//! The lines of a journal that has its form are told apart by their texts, and the first line that differs exists exactly where
//! a history isn't legal.
#![tactic(auto)]

pub mod laws;
