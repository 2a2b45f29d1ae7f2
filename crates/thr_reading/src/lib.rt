//! Laws of reading: what the three passes over a text of a script say together.
#![tactic(auto)]

pub mod laws;
