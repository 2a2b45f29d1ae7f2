//! The statements of a made script.

ghost use Rattle.std.specs.Prelude.{◌≡◌, ◌≤◌, ◌∷◌, [], ◌++◌, map, IfOk, OnOk, Some, None};
ghost use Rattle.thr_syntax.specs.declared.dce.DceCall.TheVariants as dce;
ghost use Rattle.thr_syntax.specs.declared.expr.Expr.TheVariants as expr;
ghost use Rattle.thr_syntax.specs.declared.tree.Stmt.TheVariants as stmt;
ghost use Rattle.thr_verdict.specs.Made.{number, value, add_to, add_locked, odd, caught, i_local, v_local, raise_in_seventh, round_of, create_worker, numbers_from, join_workers};

use sqlite_items::{Boxed, Items};
use std::alloc::{AllocError, Global};
use thr_syntax::dce::DceCall;
use thr_syntax::expr::{Expr, Op, Var};
use thr_syntax::tree::{Clause, Stmt};
use thr_values::number::NameId;

/// The mutex that guards both shared variables.
pub(crate) const MUTEX: NameId = NameId(10);
/// The exception that workers raise.
pub(crate) const ODD: NameId = NameId(11);
/// The shared variable to which workers add.
pub(crate) const TOTAL: NameId = NameId(12);
/// The shared variable that counts what workers caught.
pub(crate) const CAUGHT: NameId = NameId(13);
/// The local `i` of a worker and of `main`.
pub(crate) const I: Var = Var::Local(1);
/// The local `v` of `main`.
pub(crate) const V: Var = Var::Local(2);

/// A number as an expression.
pub(crate) fn number(n: u32) -> Expr
    ensures { result ≡ number n }
{
    Expr::Num(i64::from(n))
}

/// An operator with its operands.
pub(crate) fn two(alloc: Global, op: Op, a: Expr, b: Expr) -> Result<Expr, AllocError>
    ensures { IfOk result (λ e. e ≡ expr.Two op a b) }
{
    let a = Boxed::new(alloc, a)?;
    let b = Boxed::new(alloc, b)?;
    Ok(Expr::Two(op, a, b))
}

/// The variable has so much more.
pub(crate) fn add_to(alloc: Global, v: Var, n: u32) -> Result<Stmt, AllocError>
    ensures { IfOk result (λ s. s ≡ add_to v n) }
{
    Ok(Stmt::Set(v, two(alloc, Op::Add, Expr::Var(v), number(n))?))
}

/// Adds statements by which a shared variable has so much more, while the mutex is held.
fn add_locked(
    alloc: Global,
    all: &mut Items<Stmt>,
    shared: NameId,
    n: u32,
) -> Result<(), AllocError>
    ensures { OnOk result (all.new ≡ all.old ++ add_locked shared n) }
{
    all.push(Stmt::Dce(DceCall::MutexLock(MUTEX)))?;
    all.push(add_to(alloc, Var::Shared(shared), n)?)?;
    all.push(Stmt::Dce(DceCall::MutexUnlock(MUTEX)))
}

/// Every seventh round raises.
fn raise_in_seventh(alloc: Global) -> Result<Stmt, AllocError>
    ensures { IfOk result (λ s. s ≡ raise_in_seventh) }
{
    let rest = two(alloc, Op::Rem, Expr::Var(I), number(7))?;
    let test = two(alloc, Op::Equal, rest, number(0))?;
    let mut body = Items::new(alloc);
    body.push(Stmt::Raise(ODD))?;
    Ok(Stmt::If(test, body, None))
}

/// The clause that counts what is caught.
fn counting(alloc: Global) -> Result<Items<Clause>, AllocError>
    ensures { IfOk result (λ all. all ≡ record { names = Some odd; body = add_locked caught 1 } ∷ []) }
{
    let mut body = Items::new(alloc);
    add_locked(alloc, &mut body, CAUGHT, 1)?;
    let mut clauses = Items::new(alloc);
    clauses.push(Clause {
        names: Some(ODD),
        body,
    })?;
    Ok(clauses)
}

/// One round of a worker: its share is added to the sum, and what it raises is caught and counted.
pub(crate) fn round(alloc: Global, q: u32) -> Result<Items<Stmt>, AllocError>
    ensures { IfOk result (λ all. all ≡ round_of q) }
{
    let mut body = Items::new(alloc);
    add_locked(alloc, &mut body, TOTAL, q)?;
    body.push(raise_in_seventh(alloc)?)?;
    let mut all = Items::new(alloc);
    all.push(Stmt::TryCatch(body, counting(alloc)?))?;
    all.push(add_to(alloc, I, 1)?)?;
    Ok(all)
}

/// A thread that runs the routine of a worker.
fn create_worker(i: u32) -> Stmt
    requires { i ≤ 64 }
    ensures { result ≡ create_worker i }
{
    Stmt::Dce(DceCall::Create(V, None, NameId(13 + i as u16), number(0)))
}

/// Adds the threads of the workers.
pub(crate) fn create_workers(all: &mut Items<Stmt>, threads: u32) -> Result<(), AllocError>
    requires { threads ≤ 64 }
    ensures { OnOk result (all.new ≡ all.old ++ map create_worker (numbers_from 1 threads)) }
{
    let mut i = 1;
    while i <= threads {
        all.push(create_worker(i))?;
        i += 1;
    }
    Ok(())
}

/// The body of the loop that joins and detaches the threads of the workers.
fn joining(alloc: Global) -> Result<Items<Stmt>, AllocError>
    ensures { IfOk result (λ all. all ≡ stmt.Dce (dce.Join (value i_local) v_local) ∷ stmt.Dce (dce.Detach (value i_local)) ∷ add_to i_local 1 ∷ []) }
{
    let mut body = Items::new(alloc);
    body.push(Stmt::Dce(DceCall::Join(Expr::Var(I), V)))?;
    body.push(Stmt::Dce(DceCall::Detach(Expr::Var(I))))?;
    body.push(add_to(alloc, I, 1)?)?;
    Ok(body)
}

/// Adds statements that join and detach the threads of the workers.
pub(crate) fn join_workers(
    alloc: Global,
    all: &mut Items<Stmt>,
    threads: u32,
) -> Result<(), AllocError>
    requires { threads ≤ 64 }
    ensures { OnOk result (all.new ≡ all.old ++ join_workers threads) }
{
    all.push(Stmt::Set(I, number(2)))?;
    let test = two(alloc, Op::AtMost, Expr::Var(I), number(threads + 1))?;
    all.push(Stmt::While(test, joining(alloc)?))
}
