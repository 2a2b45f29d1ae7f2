//! Blocks of a script, and what lines are to them.

/// What a line is to the blocks (docs/script.md, "Blocks").
#[derive(Clone, Copy, Debug, PartialEq, Eq)]
pub enum Shape {
    /// A declaration, or an `interface` or `limit` line.
    Declares,
    OpensRoutine,
    DeclaresLocal,
    /// A statement that opens no block, leaves none and means no caught exception.
    IsPlain,
    OpensIf,
    BeginsElse,
    OpensWhile,
    OpensTry,
    BeginsCatch,
    BeginsCatchAll,
    BeginsFinally,
    ClosesTry,
    Closes,
    Returns,
    Reraises,
}

/// A block that is open above a line (docs/script.md, "Blocks").
#[derive(Clone, Copy, Debug, PartialEq, Eq)]
pub enum Block {
    /// A routine in which no statement has stood yet.
    Locals,
    /// A routine in which one has.
    Statements,
    /// An `if` without its `else`.
    Then,
    /// An `if` after its `else`.
    Otherwise,
    /// A `while`.
    Loop,
    /// A try without a clause.
    TryBody,
    /// A try in a `catch`.
    CatchBody,
    /// A try in its `catch_all`.
    CatchAllBody,
    /// A try in its `finally`.
    FinallyBody,
}
