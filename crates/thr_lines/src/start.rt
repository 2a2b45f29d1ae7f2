//! Where routines start.

use thr_values::number::Line;

/// Where a routine starts: the line of the routine, the first line of its body, and the line that closes it. Where the body
/// is empty the last two are the same (docs/machine.md, "Routines").
#[derive(Clone, Copy, Debug, PartialEq, Eq)]
pub struct Start {
    pub line: Line,
    pub body: Line,
    pub close: Line,
}
