//! Words that are neither numbers nor names.

ghost use Rattle.std.specs.Prelude.{◌≡◌, IfOk};

use smallvec::SmallVec;
use std::alloc::{AllocError, Global};
use std::marker::Model;

/// The bytes of a word that is neither a number nor a name, which contracts see as their list. Most are operators, so those of few bytes
/// lie in the value itself and take no memory of their own.
#[derive(Drop)]
pub struct Mark {
    bytes: SmallVec<u8, 8>,
}

impl Model for Mark {
    ghost use Rattle.std.specs.Prelude.{List, ℕ};

    ghost Value = { List ℕ };

    ghost view = { λ m. m.bytes.items };
}

impl Mark {
    /// A mark of these bytes. Whether they are neither a number nor a name is the caller's affair.
    pub fn from_slice(alloc: Global, text: &[u8]) -> Result<Mark, AllocError>
        ensures { IfOk result (λ m. m ≡ text.now) }
    {
        let bytes = SmallVec::from_slice(alloc, text)?;
        Ok(Mark { bytes })
    }

    /// The bytes.
    pub fn as_slice(&self) -> &[u8]
        ensures { result.now ≡ self.now }
    {
        self.bytes.as_slice()
    }
}
