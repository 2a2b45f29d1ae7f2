//! What a text is refused for that is read as a journal.

use std::alloc::{AllocError, AllocFailed};

/// A fault by its number, 1 to 7, and the line of the text where it is, from 1 on (docs/journal.md, "Faults of a journal").
#[derive(Clone, Copy, Debug, PartialEq, Eq)]
pub struct JournalPlace {
    pub number: u8,
    pub line: u32,
}

/// Why a text is no journal: its first fault, or want of memory, which says nothing of the text.
#[derive(Clone, Copy, Debug, PartialEq, Eq)]
pub enum JournalFault {
    Refused(JournalPlace),
    NoMemory,
}

impl From<AllocError> for JournalFault {
    ghost use Rattle.std.specs.Prelude.{◌≡◌};
    ghost use Rattle.thr_journals.specs.declared.fault.JournalFault.TheVariants.{NoMemory};

    ghost from_gives = { λ _ e. e ≡ NoMemory };

    fn from(_: AllocError) -> Self {
        JournalFault::NoMemory
    }
}

impl<T: Drop> From<AllocFailed<T>> for JournalFault {
    ghost use Rattle.std.specs.Prelude.{◌≡◌};
    ghost use Rattle.thr_journals.specs.declared.fault.JournalFault.TheVariants.{NoMemory};

    ghost from_gives = { λ _ e. e ≡ NoMemory };

    fn from(_: AllocFailed<T>) -> Self {
        JournalFault::NoMemory
    }
}
