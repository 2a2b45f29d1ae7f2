//! Journals as values (docs/journal.md).

use crate::tree::Script;
use sqlite_items::Items;
use thr_values::event::Stop;
use thr_values::history::Entry;

/// A run: how many workers were its processors, the script, the lines of the history and how it stopped.
#[derive(Drop)]
pub struct Journal {
    pub workers: u32,
    pub script: Script,
    pub entries: Items<Entry>,
    pub stop: Stop,
}
