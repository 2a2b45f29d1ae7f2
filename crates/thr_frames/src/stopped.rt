//! What ends the quiet part of a turn.

use thr_values::number::Line;

/// What ends the quiet part of a turn, and with it the turn (docs/machine.md, "Turns").
#[derive(Clone, Copy)]
pub enum Stopped {
    /// A shared statement is next, at this line.
    Shared(Line),
    /// A cancel is delivered in place of the call that stands at this line, which is a point.
    Point(Line),
    /// A cancel is delivered before the step at this line.
    Async(Line),
    /// The turn has had its quiet steps, and the line `pause` is written.
    Paused,
    /// No frame is left, and this is the value of the thread.
    Ended(i64),
    /// The routine of a once block has ended.
    OnceDone,
    /// An unwinding undoes a once block.
    OnceUndone,
}
