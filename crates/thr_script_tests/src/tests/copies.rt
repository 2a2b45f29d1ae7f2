//! That memory is found for a copy, which no clause says.

use sqlite_items::{Boxed, Items};
use std::alloc::Global;
use std::test::Fail;
use thr_syntax::copy::copy_script;
use thr_syntax::dce::DceCall;
use thr_syntax::expr::{Expr, Op, Var};
use thr_syntax::tree::{Clause, Item, Routine, Script, Stmt};
use thr_values::name::Name;
use thr_values::number::NameId;

fn body(alloc: Global, stmt: Stmt) -> Result<Items<Stmt>, Fail> {
    let mut all = Items::new(alloc);
    all.push(stmt)?;
    Ok(all)
}

/// A script with an `else`, a try with clauses, one with `finally`, and a call.
fn script(alloc: Global) -> Result<Script, Fail> {
    let local = Var::Local(0);
    let sum = Expr::Two(
        Op::Add,
        Boxed::new(alloc, Expr::Var(local))?,
        Boxed::new(alloc, Expr::Num(1))?,
    );
    let set = body(alloc, Stmt::Set(local, sum))?;
    let yields = body(alloc, Stmt::Dce(DceCall::Yield))?;
    let mut clauses = Items::new(alloc);
    clauses.push(Clause {
        names: Some(NameId(0)),
        body: yields,
    })?;
    clauses.push(Clause {
        names: None,
        body: body(alloc, Stmt::Reraise)?,
    })?;
    let catches = body(alloc, Stmt::TryCatch(set, clauses))?;
    let creates = Stmt::Dce(DceCall::Create(local, None, NameId(10), Expr::Me));
    let finally = Stmt::TryFinally(catches, body(alloc, creates)?);
    let says = body(alloc, Stmt::Say(Expr::Err))?;
    let branches = Stmt::If(Expr::Num(1), body(alloc, finally)?, Some(says));
    let mut locals = Items::new(alloc);
    locals.push(Name::from_slice(alloc, b"a")?)?;
    let mut items = Items::new(alloc);
    items.push(Item::Pipe(NameId(11), 4096))?;
    items.push(Item::Routine(Routine {
        name: NameId(10),
        locals,
        body: body(alloc, branches)?,
    }))?;
    let mut names = Items::new(alloc);
    names.push(Name::from_slice(alloc, b"main")?)?;
    Ok(Script { names, items })
}

#[test]
fn a_copy_is_made(rt: HostRuntime) -> Result<(), Fail> {
    let alloc = rt.alloc();
    let script = script(alloc)?;
    let copy = copy_script(alloc, &script)?;
    assert_eq!(rt; copy.items.len(), script.items.len());
    assert_eq!(rt; copy.names.len(), script.names.len());
    Ok(())
}
