//! Laws on the lines of journals: they are read back as what is printed. Each is a function that does nothing and whose
//! contract is the law.
#![tactic(auto)]

pub mod laws;
