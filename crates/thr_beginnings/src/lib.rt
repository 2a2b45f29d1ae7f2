//! Routines that begin in the course of a history: destructors, and the routines of once blocks (docs/machine.md, "Keys" and "Once
//! blocks"). Each law is a function that does nothing and whose contract is that law.
#![tactic(auto)]

pub mod laws;
