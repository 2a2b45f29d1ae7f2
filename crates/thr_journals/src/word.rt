//! The first words of what lines say.

/// The first word of what a line of a thread says, calls apart (docs/journal.md, "The lines").
#[derive(Clone, Copy, Debug, PartialEq, Eq)]
pub enum LineWord {
    Ret,
    Gift,
    Say,
    Set,
    If,
    While,
    Call,
    Return,
    Raise,
    Reraise,
    Deliver,
    Exit,
    Try,
    Endtry,
    Catch,
    Endcatch,
    Finally,
    Endfin,
    Once,
    Done,
    Undone,
    Destroy,
    Enddes,
    Lost,
    Bottom,
    Pause,
    End,
}
