//! Mutexes.

use thr_values::number::Tid;
use thr_values::reply::Kind;

/// Who owns a mutex, and how often it is locked: at least once.
#[derive(Clone, Copy, Debug, PartialEq, Eq)]
pub struct Held {
    pub owner: Tid,
    pub depth: u64,
}

/// A mutex that is made: its kind, and its owner unless it is free (docs/machine.md, "Mutexes").
#[derive(Clone, Copy, Debug, PartialEq, Eq)]
pub struct Mutex {
    pub kind: Kind,
    pub held: Option<Held>,
}
