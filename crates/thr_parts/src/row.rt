//! Where threads stand and run.

use thr_values::number::{NameId, Tid};

/// A row in which threads wait or are ready (docs/machine.md, "Rows").
#[derive(Clone, Copy, Debug, PartialEq, Eq)]
pub enum RowId {
    Ready,
    Mutex(NameId),
    Global,
    Cond(NameId),
    Join(Tid),
    Once(NameId),
    Reader(NameId),
    Writer(NameId),
    Time,
}

/// On a processor with so many turns left of its slice, or in a row since this arrival (docs/machine.md, "Rows").
#[derive(Clone, Copy, Debug, PartialEq, Eq)]
pub enum Place {
    Runs(u32, u8),
    Stands(RowId, u64),
}

/// The rank of a thread and its place.
#[derive(Clone, Copy, Debug, PartialEq, Eq)]
pub struct Seat {
    pub rank: u16,
    pub place: Place,
}
