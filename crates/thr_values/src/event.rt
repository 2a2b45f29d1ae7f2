//! Events of the machine, and how a history stops.

use crate::number::Tid;

/// One change of the machine (docs/machine.md, "Events"). A processor is named by its number, from 0 on.
#[derive(Clone, Copy, Debug, PartialEq, Eq)]
pub enum Event {
    /// A processor takes a ready thread.
    Dispatch(u32),
    /// The thread of a processor makes a turn.
    Turn(u32),
    /// The clock moves.
    Clock,
}

/// Why a history ends (docs/machine.md, "Stops").
#[derive(Clone, Copy, Debug, PartialEq, Eq)]
pub enum Stop {
    Finished,
    /// How many threads have not ended, and the least of them.
    Deadlock(u32, Tid),
    Limit,
    Memory,
}
