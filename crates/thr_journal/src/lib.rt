//! Journals and their texts (docs/journal.md).
#![tactic(auto)]

mod printing;

pub use printing::{add_entry, add_stop, print};
