//! By crate.

mod blocks;
mod forms;
mod names;
mod table;
mod words;
