//! Verdicts as values.

use sqlite_items::Items;

/// A verdict on a journal (docs/journal.md, "The verdict").
#[derive(Debug, Drop)]
pub enum Verdict {
    /// Its history is legal.
    Legal,
    /// It isn't, and this line differs first.
    Illegal(Differs),
}

/// The first line that differs from what the machine gives.
#[derive(Debug, Drop)]
pub struct Differs {
    /// Its number in the whole journal, from 1 on.
    pub line: u32,
    /// The line, without its end.
    pub has: Items<u8>,
    /// What is to stand there, without its end, or None where nothing is.
    pub should: Option<Items<u8>>,
}
