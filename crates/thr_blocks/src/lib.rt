//! Blocks of a script: the second pass, which says which lines stand where, and the tree of lines that nest.
#![tactic(auto)]

pub mod build;
pub mod check;
mod frame;
pub mod laws;
mod level;
mod misfit;
mod open_blocks;
