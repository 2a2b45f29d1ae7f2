//! A script of which some lines are read: what is whole, and what is open.

use sqlite_items::Items;
use thr_syntax::expr::Expr;
use thr_syntax::tree::{Clause, Stmt};
use thr_values::name::Name;
use thr_values::number::NameId;

/// An open block in a routine, by the line that with_parts it and those of its parts that are whole.
#[derive(Drop)]
pub enum Opener {
    If(Expr),
    /// The `else` of an `if` with this body.
    Else(Expr, Items<Stmt>),
    While(Expr),
    Try,
    /// A clause of a try, with the body of the try, its clauses so far and what this clause names.
    Catch(Items<Stmt>, Items<Clause>, Option<NameId>),
    /// The `finally` of a try with this body.
    Finally(Items<Stmt>),
}

/// An open block with the statements that stand before it in the block around it.
#[derive(Drop)]
pub struct Frame {
    pub opener: Opener,
    pub outer: Items<Stmt>,
}

/// The routine that is open.
#[derive(Drop)]
pub struct OpenRoutine {
    pub name: NameId,
    /// The parameter and the locals so far.
    pub locals: Items<Name>,
    /// The statements of the innermost block so far.
    pub body: Items<Stmt>,
    /// The open blocks in the routine, the innermost last.
    pub frames: Items<Frame>,
}

/// A further part of a block, by the line that begins it.
#[derive(Clone, Copy)]
pub enum Part {
    Else,
    /// A clause that catches, with what it names.
    Catch(Option<NameId>),
    Finally,
}
