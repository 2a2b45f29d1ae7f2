//! What a thread has still to do, as frames over the lines of its script.

use crate::frames::Frames;
use thr_remainder::unwinding::Unwinding;

/// The frames of a thread, with the line where the innermost goes on (docs/machine.md, "What is left to do").
#[derive(Drop)]
pub struct Context {
    pub frames: Frames,
    pub line: u32,
    pub under_way: Option<Unwinding>,
    /// What is kept for the thread's end.
    pub value: i64,
    /// The number of the last reply.
    pub err: i64,
    /// How many scopes and unwindings there were.
    pub scopes: u64,
    pub unwindings: u64,
    /// The thread's own number.
    pub me: u32,
}
