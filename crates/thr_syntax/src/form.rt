//! The lines of the canonical script.

use crate::dce::DceCall;
use crate::expr::{Expr, Var};
use crate::tree::Interface;
use thr_values::name::Name;
use thr_values::number::NameId;

/// What a line of the canonical script says, with its names resolved (docs/script.md, "Lines"). Each has the words of its
/// line in their order.
#[derive(Drop)]
pub enum Form {
    /// The first line.
    Header,
    Interface(Interface),
    Limit(u32),
    Shared(NameId, i64),
    Exception(NameId),
    Status(NameId, i64),
    Mutex(NameId),
    MutexAttr(NameId),
    Cond(NameId),
    Attr(NameId),
    Key(NameId),
    Once(NameId),
    Pipe(NameId, u32),
    /// The routine and its parameter.
    Routine(NameId, Name),
    Local(Name),
    Set(Var, Expr),
    Say(Expr),
    If(Expr),
    Else,
    While(Expr),
    Try,
    Catch(NameId),
    CatchAll,
    Finally,
    Endtry,
    Raise(NameId),
    Reraise,
    Call(NameId, Expr, Option<u8>),
    Return(Expr),
    Exit(Expr),
    Dce(DceCall),
    /// The end of an `if`, a `while` or a routine.
    End,
}
