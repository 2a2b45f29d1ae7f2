//! Places of a history that are wrong.

use thr_values::event::Stop;
use thr_values::history::Entry;

/// What is to stand at a place of a history.
#[derive(Clone, Copy)]
pub enum Right {
    /// A line of the history.
    Line(Entry),
    /// The stop line.
    Stop(Stop),
}

/// A place of a history, counted from 1, that is wrong, and what is to stand there, or None where nothing is.
#[derive(Clone, Copy)]
pub struct Wrong {
    pub place: u32,
    /// What is to stand there.
    pub right: Option<Right>,
}
