//! By crate.

mod conds;
mod lines;
mod locks;
mod onces;
mod pipes;
mod rows;
mod tables;
mod threads;
