//! Reports as values.

use sqlite_items::Items;
use thr_values::event::Stop;
use thr_values::number::NameId;

/// What a report counts (docs/journal.md, "The report").
#[derive(Drop)]
pub struct Report {
    pub lines: u64,
    pub threads: u64,
    pub ended: u64,
    pub calls: u64,
    pub blocked: u64,
    pub raised: u64,
    pub delivered: u64,
    pub caught: u64,
    /// The declared mutexes in their order, each with how often a thread got it.
    pub acquired: Items<(NameId, u64)>,
    pub stop: Stop,
}
