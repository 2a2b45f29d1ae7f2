//! Words of a line.

use crate::mark::Mark;
use thr_values::name::Name;

/// A word of a line of a script (docs/script.md, "Words").
#[derive(Drop)]
pub enum Word {
    /// A word that has the form of a number.
    Num(i64),
    /// Any other word that has the form of a name, reserved or not.
    Name(Name),
    /// Any other word, such as an operator, or a fixed word that is too long to be a name.
    Mark(Mark),
}

impl Default for Word {
    fn default() -> Word {
        Word::Num(0)
    }
}
