//! The routines of a made script.

ghost use Rattle.std.specs.Prelude.{◌≡◌, ◌≤◌, ◌∷◌, [], codes, IfOk};
ghost use Rattle.thr_verdict.specs.Made.{worker_routine, main_routine};

use crate::names::name;
use crate::statements::{I, MUTEX, create_workers, join_workers, number, round, two};
use sqlite_items::Items;
use std::alloc::{AllocError, Global};
use thr_syntax::dce::DceCall;
use thr_syntax::expr::{Expr, Op};
use thr_syntax::tree::{Item, Routine, Stmt};
use thr_values::name::Name;
use thr_values::number::NameId;

/// The parameter and the local of a worker.
fn worker_locals(alloc: Global) -> Result<Items<Name>, AllocError>
    ensures { IfOk result (λ all. all ≡ codes "a" ∷ codes "i" ∷ []) }
{
    let mut all = Items::new(alloc);
    all.push(name(alloc, b"a")?)?;
    all.push(name(alloc, b"i")?)?;
    Ok(all)
}

/// The routine of a worker with so many rounds and this share.
pub(crate) fn worker(alloc: Global, i: u32, rounds: u32, share: u32) -> Result<Item, AllocError>
    requires { i ≤ 64 }
    ensures { IfOk result (λ item. item ≡ worker_routine i rounds share) }
{
    let test = two(alloc, Op::Less, Expr::Var(I), number(rounds))?;
    let mut body = Items::new(alloc);
    body.push(Stmt::Set(I, number(0)))?;
    body.push(Stmt::While(test, round(alloc, share)?))?;
    Ok(Item::Routine(Routine {
        name: NameId(13 + i as u16),
        locals: worker_locals(alloc)?,
        body,
    }))
}

/// The parameter and the locals of `main`.
fn main_locals(alloc: Global) -> Result<Items<Name>, AllocError>
    ensures { IfOk result (λ all. all ≡ codes "a" ∷ codes "i" ∷ codes "v" ∷ []) }
{
    let mut all = Items::new(alloc);
    all.push(name(alloc, b"a")?)?;
    all.push(name(alloc, b"i")?)?;
    all.push(name(alloc, b"v")?)?;
    Ok(all)
}

/// The routine `main`, which makes the mutex and the threads of the workers, and waits for these.
pub(crate) fn main_of(alloc: Global, threads: u32) -> Result<Item, AllocError>
    requires { threads ≤ 64 }
    ensures { IfOk result (λ item. item ≡ main_routine threads) }
{
    let mut body = Items::new(alloc);
    body.push(Stmt::Dce(DceCall::MutexInit(MUTEX, None)))?;
    create_workers(&mut body, threads)?;
    join_workers(alloc, &mut body, threads)?;
    Ok(Item::Routine(Routine {
        name: NameId(14 + threads as u16),
        locals: main_locals(alloc)?,
        body,
    }))
}
