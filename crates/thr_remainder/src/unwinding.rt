//! What leaves the handlers of a thread behind.

use thr_values::exception::Exc;

/// Why handlers are left.
#[derive(Clone, Copy, Debug, PartialEq, Eq)]
pub enum Cause {
    /// An exception was raised, or a cancel was delivered.
    Raised(Exc),
    /// The thread exits with this value.
    Exit(i64),
}

/// An unwinding with its number, from 1 on in each thread (docs/machine.md, "Unwindings").
#[derive(Clone, Copy, Debug, PartialEq, Eq)]
pub struct Unwinding {
    pub number: u64,
    pub cause: Cause,
}
