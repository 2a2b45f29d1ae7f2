//! The top call of the program, as a library.
#![tactic(auto)]

mod answer;
pub mod check;
pub mod command;
mod make;
mod run;
pub mod top;
mod trial;
