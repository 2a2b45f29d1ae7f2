//! Why a line has no words.

use std::alloc::{AllocError, AllocFailed};
use thiserror::Error;

/// The least fault of a line by itself (docs/script.md, "Faults"), or want of memory.
#[derive(Debug, Drop, Error)]
pub enum LexFault {
    /// A byte other than a tab and those from space to `~`, also in a comment.
    #[error("a byte that may not stand in a line")]
    F1,
    /// More than 240 bytes without the ending of the line.
    #[error("a line of more than 240 bytes")]
    F2,
    /// A word before the comment that is a number outside `i64`.
    #[error("a number outside the range of 64 bits")]
    F3,
    /// More than 24 words.
    #[error("a line of more than 24 words")]
    F4,
    /// It says nothing of the line.
    #[error("out of memory")]
    NoMemory,
}

impl From<AllocError> for LexFault {
    ghost use Rattle.std.specs.Prelude.{◌≡◌};
    ghost use Rattle.thr_lexer.specs.declared.fault.LexFault.TheVariants.{NoMemory};

    ghost from_gives = { λ _ e. e ≡ NoMemory };

    fn from(_: AllocError) -> Self {
        LexFault::NoMemory
    }
}

impl<T: Drop> From<AllocFailed<T>> for LexFault {
    ghost use Rattle.std.specs.Prelude.{◌≡◌};
    ghost use Rattle.thr_lexer.specs.declared.fault.LexFault.TheVariants.{NoMemory};

    ghost from_gives = { λ _ e. e ≡ NoMemory };

    fn from(_: AllocFailed<T>) -> Self {
        LexFault::NoMemory
    }
}
