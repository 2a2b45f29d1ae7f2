//! What a worker passes between its holds of the lock.

/// Where a worker is when it passes the gate (docs/theorems.md, "Workers").
#[derive(Clone, Copy, Debug, PartialEq, Eq)]
pub enum Place {
    /// It has found a thread on its processor.
    Claimed,
    /// It has prepared the quiet steps of its thread's turn, or there are none. No worker comes here as long as turns are made
    /// whole under the lock.
    Prepared,
    /// It has made a turn.
    Committed,
}

/// Is called by each worker, without the lock. It may wait.
pub trait Gate {
    fn at(&self, worker: u32, place: Place);
}

/// A gate that lets every worker pass.
pub struct NoGate;

impl Gate for NoGate {
    fn at(&self, _worker: u32, _place: Place) {}
}
