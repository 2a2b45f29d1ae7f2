//! Journals from their texts.
#![tactic(auto)]

mod cut;
mod history;
mod known;
mod reading;
mod script;
mod title;

pub use reading::read;
pub use thr_journals::fault::{JournalFault, JournalPlace};
