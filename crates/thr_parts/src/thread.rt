//! Records of threads, and attribute cells.

use thr_values::number::Tid;
use thr_values::scheduling::{Mode, Policy};

/// An attribute cell that is made (docs/machine.md, "Attribute cells").
#[derive(Clone, Copy, Debug, PartialEq, Eq)]
pub struct Attr {
    pub policy: Policy,
    pub prio: u8,
    /// Whether a thread takes policy and priority from its maker.
    pub inherits: bool,
    /// The stack size, counted in frames.
    pub frames: u32,
}

/// The record of a thread (docs/machine.md, "Thread records").
#[derive(Clone, Copy, Debug, PartialEq, Eq)]
pub struct Thread {
    pub tid: Tid,
    pub policy: Policy,
    pub prio: u8,
    /// The stack size, counted in frames.
    pub frames: u32,
    pub mode: Mode,
    pub detached: bool,
    /// The thread has ended with this value.
    pub ended: Option<i64>,
}
