//! Once blocks, and keys with the values that threads have of them (docs/machine.md, "Once blocks" and "Keys").
#![tactic(auto)]

mod keys;
mod onces;
mod values;

pub use onces::Onces;
