//! What a text of a script is refused for.

use std::alloc::{AllocError, AllocFailed};

/// A fault by its number, 1 to 18, and the line of the text where it is, from 1 on (docs/script.md, "Faults").
#[derive(Clone, Copy, Debug, PartialEq, Eq)]
pub struct Place {
    pub number: u8,
    pub line: u32,
}

/// Why a text is no script: its first stated fault, or want of memory, which says nothing of the text.
#[derive(Clone, Copy, Debug, PartialEq, Eq)]
pub enum ParseFault {
    Refused(Place),
    NoMemory,
}

impl From<AllocError> for ParseFault {
    ghost use Rattle.std.specs.Prelude.{◌≡◌};
    ghost use Rattle.thr_text.specs.declared.fault.ParseFault.TheVariants.{NoMemory};

    ghost from_gives = { λ _ e. e ≡ NoMemory };

    fn from(_: AllocError) -> Self {
        ParseFault::NoMemory
    }
}

impl<T: Drop> From<AllocFailed<T>> for ParseFault {
    ghost use Rattle.std.specs.Prelude.{◌≡◌};
    ghost use Rattle.thr_text.specs.declared.fault.ParseFault.TheVariants.{NoMemory};

    ghost from_gives = { λ _ e. e ≡ NoMemory };

    fn from(_: AllocFailed<T>) -> Self {
        ParseFault::NoMemory
    }
}
