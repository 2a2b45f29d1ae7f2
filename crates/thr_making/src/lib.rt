//! Scripts that are made of two numbers (docs/script.md, "Made scripts").
#![tactic(auto)]

mod making;
mod names;
mod numbers;
mod routines;
mod statements;

pub use making::make_script;
