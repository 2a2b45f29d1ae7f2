//! Waiting writers of pipes.

use thr_values::number::NameId;

/// The pipe at which a writer waits, and its item (docs/machine.md, "Pipes").
#[derive(Clone, Copy, Debug, PartialEq, Eq)]
pub struct Writing {
    pub pipe: NameId,
    pub item: i64,
}
