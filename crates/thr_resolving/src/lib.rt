//! The names of a line resolved.
#![tactic(auto)]

mod form;
pub mod laws;
mod operator;
pub mod piece;
mod pieces;
pub mod resolve;
mod scope;
pub mod value;
mod values;
