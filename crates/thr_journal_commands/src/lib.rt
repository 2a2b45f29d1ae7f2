//! The commands that read a journal.
#![tactic(auto)]

mod answering;
pub mod command;
mod refusing;
mod reporting;
mod verifying;

pub use answering::on_journal;
