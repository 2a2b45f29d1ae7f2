//! The third pass over a script: names and limits (docs/script.md, "Faults").
#![tactic(auto)]

mod brought;
mod context;
mod judge;
pub mod laws;
mod places;
mod sense;
mod table;

pub use context::pass_locals;
pub use judge::judge_lines;
pub use places::rest;
pub use sense::is_among;
pub use table::Table;
