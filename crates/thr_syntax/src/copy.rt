//! Copies of scripts.

ghost use Rattle.std.specs.Prelude.{◌≡◌, IfOk};

use crate::tree::{Clause, Item, Routine, Script, Stmt};
use sqlite_items::Items;
use std::alloc::{AllocError, Global};
use thr_values::name::Name;
use thr_values::number::NoMemory;

/// A script that is equal to this one.
pub fn copy_script(alloc: Global, script: &Script) -> Result<Script, NoMemory>
    ensures { IfOk result (λ copy. copy ≡ script.now) }
{
    let names = copy_names(alloc, script.names.as_slice()).map_err(|_| NoMemory)?;
    let items = copy_items(alloc, script.items.as_slice()).map_err(|_| NoMemory)?;
    Ok(Script { names, items })
}

fn copy_names(alloc: Global, names: &[Name]) -> Result<Items<Name>, AllocError>
    ensures { IfOk result (λ all. all ≡ names.now) }
{
    let mut all = Items::new(alloc);
    for name in names {
        all.push(name.clone()?)?;
    }
    Ok(all)
}

fn copy_items(alloc: Global, items: &[Item]) -> Result<Items<Item>, AllocError>
    ensures { IfOk result (λ all. all ≡ items.now) }
{
    let mut all = Items::new(alloc);
    for item in items {
        all.push(copy_item(alloc, item)?)?;
    }
    Ok(all)
}

fn copy_item(alloc: Global, item: &Item) -> Result<Item, AllocError>
    ensures { IfOk result (λ copy. copy ≡ item.now) }
{
    match item {
        Item::Interface(interface) => Ok(Item::Interface(*interface)),
        Item::Limit(n) => Ok(Item::Limit(*n)),
        Item::Shared(name, n) => Ok(Item::Shared(*name, *n)),
        Item::Exception(name) => Ok(Item::Exception(*name)),
        Item::Status(name, n) => Ok(Item::Status(*name, *n)),
        Item::Mutex(name) => Ok(Item::Mutex(*name)),
        Item::MutexAttr(name) => Ok(Item::MutexAttr(*name)),
        Item::Cond(name) => Ok(Item::Cond(*name)),
        Item::Attr(name) => Ok(Item::Attr(*name)),
        Item::Key(name) => Ok(Item::Key(*name)),
        Item::Once(name) => Ok(Item::Once(*name)),
        Item::Pipe(name, n) => Ok(Item::Pipe(*name, *n)),
        Item::Routine(routine) => Ok(Item::Routine(copy_routine(alloc, routine)?)),
    }
}

fn copy_routine(alloc: Global, routine: &Routine) -> Result<Routine, AllocError>
    ensures { IfOk result (λ copy. copy ≡ routine.now) }
{
    let locals = copy_names(alloc, routine.locals.as_slice())?;
    let body = copy_body(alloc, routine.body.as_slice())?;
    Ok(Routine {
        name: routine.name,
        locals,
        body,
    })
}

#[cycle(stmt_copies)]
fn copy_body(alloc: Global, body: &[Stmt]) -> Result<Items<Stmt>, AllocError>
    ensures { IfOk result (λ all. all ≡ body.now) }
{
    let mut all = Items::new(alloc);
    for stmt in body {
        all.push(copy_stmt(alloc, stmt)?)?;
    }
    Ok(all)
}

#[cycle(stmt_copies)]
fn copy_clauses(alloc: Global, clauses: &[Clause]) -> Result<Items<Clause>, AllocError>
    ensures { IfOk result (λ all. all ≡ clauses.now) }
{
    let mut all = Items::new(alloc);
    for clause in clauses {
        let body = copy_body(alloc, clause.body.as_slice())?;
        all.push(Clause {
            names: clause.names,
            body,
        })?;
    }
    Ok(all)
}

#[cycle(stmt_copies)]
fn copy_stmt(alloc: Global, stmt: &Stmt) -> Result<Stmt, AllocError>
    ensures { IfOk result (λ copy. copy ≡ stmt.now) }
{
    match stmt {
        Stmt::Set(v, e) => Ok(Stmt::Set(*v, e.copy(alloc)?)),
        Stmt::Say(e) => Ok(Stmt::Say(e.copy(alloc)?)),
        Stmt::If(e, body, other) => {
            let e = e.copy(alloc)?;
            let body = copy_body(alloc, body.as_slice())?;
            match other {
                None => Ok(Stmt::If(e, body, None)),
                Some(other) => Ok(Stmt::If(e, body, Some(copy_body(alloc, other.as_slice())?))),
            }
        }
        Stmt::While(e, body) => {
            let e = e.copy(alloc)?;
            Ok(Stmt::While(e, copy_body(alloc, body.as_slice())?))
        }
        Stmt::TryCatch(body, clauses) => {
            let body = copy_body(alloc, body.as_slice())?;
            Ok(Stmt::TryCatch(body, copy_clauses(alloc, clauses.as_slice())?))
        }
        Stmt::TryFinally(body, last) => {
            let body = copy_body(alloc, body.as_slice())?;
            Ok(Stmt::TryFinally(body, copy_body(alloc, last.as_slice())?))
        }
        Stmt::Raise(name) => Ok(Stmt::Raise(*name)),
        Stmt::Reraise => Ok(Stmt::Reraise),
        Stmt::Call(name, e, v) => Ok(Stmt::Call(*name, e.copy(alloc)?, *v)),
        Stmt::Return(e) => Ok(Stmt::Return(e.copy(alloc)?)),
        Stmt::Exit(e) => Ok(Stmt::Exit(e.copy(alloc)?)),
        Stmt::Dce(call) => Ok(Stmt::Dce(call.copy(alloc)?)),
    }
}
