//! The commands.

/// A command that reads a journal.
#[derive(Clone, Copy, Debug, PartialEq, Eq)]
pub enum JournalCommand {
    /// Write what the journal counts, be its history legal or not.
    Report,
    /// Write whether its history is legal, and else the first line that differs from what the machine gives.
    Verify,
}
