//! Kinds of next steps.

/// The next step of a thread that owes nothing (docs/machine.md, "The next step").
#[derive(Clone, Copy)]
pub enum Stood {
    /// No frame is left.
    Ended,
    /// A once routine ends.
    EndsOnce,
    /// A shared statement that is no point.
    Shared,
    /// A call that is a point.
    Point,
    Quiet,
    /// An unwinding undoes a once block.
    Undoes,
    /// An unwinding goes outward.
    Outward,
}
