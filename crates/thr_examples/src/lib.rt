//! Worked scripts with their histories, and lines and texts with their faults, computed from the definitions: each is a
//! function that does nothing and whose contract is the example.
#![tactic(auto)]

pub mod forms;
pub mod histories;
pub mod large;
pub mod lines;
pub mod reading;
pub mod scripts;
