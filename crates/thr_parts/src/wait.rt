//! Waits on conditions and for times.

use thr_values::number::NameId;

/// A wait on a condition with a mutex, until a time where there is one, or the wait of a delay until a time
/// (docs/machine.md, "Conditions").
#[derive(Clone, Copy, Debug, PartialEq, Eq)]
pub enum Wait {
    Cond(NameId, NameId, Option<i64>),
    Delay(i64),
}
