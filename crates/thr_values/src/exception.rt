//! Exceptions, and when one matches another.

ghost use Rattle.std.specs.Prelude.{◌↔◌, IsTrue};
ghost use Rattle.thr_values.specs.Exceptions.{IsSame};

use crate::number::NameId;

/// An exception that a thread raises (docs/machine.md, "Exceptions").
#[derive(Clone, Copy, Debug, PartialEq, Eq)]
pub enum Exc {
    /// An address exception, known by its own identity.
    Address(NameId),
    /// A status exception, known by the number that it carries.
    Status(i64),
}

impl Exc {
    /// Whether a clause that names `other` catches this exception.
    pub fn matches(&self, other: &Exc) -> bool
        ensures { IsTrue result ↔ IsSame self.now other.now }
    {
        match (self, other) {
            (Exc::Address(a), Exc::Address(b)) => *a == *b,
            (Exc::Status(m), Exc::Status(n)) => *m == *n,
            _ => false,
        }
    }
}

// ---- built-in exceptions, which are the first ten names of each script (docs/script.md, "Names")

/// A cancel that is delivered.
pub const CANCEL_E: Exc = Exc::Address(NameId(0));
/// EINVAL, where the interface is `exc`.
pub const BADPARAM_E: Exc = Exc::Address(NameId(1));
/// EPERM and EDEADLK.
pub const USE_ERROR_E: Exc = Exc::Address(NameId(2));
/// ESRCH.
pub const EXISTENCE_E: Exc = Exc::Address(NameId(3));
/// EBUSY.
pub const IN_USE_E: Exc = Exc::Address(NameId(4));
/// EAGAIN.
pub const EXHAUST_E: Exc = Exc::Address(NameId(5));
/// EPIPE.
pub const PIPE_E: Exc = Exc::Address(NameId(6));
/// A result that doesn't fit 64 bits.
pub const INTOVF_E: Exc = Exc::Address(NameId(7));
/// A division by 0.
pub const INTDIV_E: Exc = Exc::Address(NameId(8));
/// A frame that doesn't fit the stack.
pub const STACKOVF_E: Exc = Exc::Address(NameId(9));
