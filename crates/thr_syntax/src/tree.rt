//! Scripts, routines and statements (docs/script.md).

use crate::dce::DceCall;
use crate::expr::{Expr, Var};
use sqlite_items::Items;
use thr_values::name::Name;
use thr_values::number::NameId;

/// Whether error replies raise.
#[derive(Clone, Copy, Debug, PartialEq, Eq)]
pub enum Interface {
    /// An error reply raises the exception that stands for it.
    Exc,
    /// No error reply raises.
    Status,
}

/// A statement.
#[cycle(stmt)]
#[derive(Drop)]
pub enum Stmt {
    Set(Var, Expr),
    Say(Expr),
    If(Expr, Items<Stmt>, Option<Items<Stmt>>),
    While(Expr, Items<Stmt>),
    TryCatch(Items<Stmt>, Items<Clause>),
    TryFinally(Items<Stmt>, Items<Stmt>),
    Raise(NameId),
    Reraise,
    /// The routine, its argument, and the local that takes the returned value.
    Call(NameId, Expr, Option<u8>),
    Return(Expr),
    Exit(Expr),
    Dce(DceCall),
}

/// A clause of a try: `catch` with its exception, or `catch_all`.
#[cycle(stmt)]
#[derive(Drop)]
pub struct Clause {
    pub names: Option<NameId>,
    pub body: Items<Stmt>,
}

/// A routine. The first of its locals is its parameter.
#[derive(Drop)]
pub struct Routine {
    pub name: NameId,
    pub locals: Items<Name>,
    pub body: Items<Stmt>,
}

/// A declaration, with its opening value, its number or its capacity.
#[derive(Drop)]
pub enum Item {
    Interface(Interface),
    Limit(u32),
    Shared(NameId, i64),
    Exception(NameId),
    Status(NameId, i64),
    Mutex(NameId),
    MutexAttr(NameId),
    Cond(NameId),
    Attr(NameId),
    Key(NameId),
    Once(NameId),
    Pipe(NameId, u32),
    Routine(Routine),
}

/// A script: the ten built-in exceptions and the declared names in their order, and the declarations.
#[derive(Drop)]
pub struct Script {
    pub names: Items<Name>,
    pub items: Items<Item>,
}
