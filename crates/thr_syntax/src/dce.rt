//! Calls of the thread service with their arguments, in their order (docs/script.md, "Calls").

ghost use Rattle.std.specs.Prelude.{◌≡◌, IfOk};

use crate::expr::{Expr, Var};
use std::alloc::{AllocError, Global};
use thr_values::number::NameId;
use thr_values::reply::Kind;
use thr_values::scheduling::Policy;

/// A call of the thread service. A `Var` takes the value of a number reply. An absent name is `default` or `none`, and a
/// `bool` is the first or the second of the two words that may stand at its place.
#[derive(Drop)]
pub enum DceCall {
    AttrCreate(NameId),
    AttrDelete(NameId),
    AttrSetsched(NameId, Policy),
    AttrSetprio(NameId, Expr),
    /// Whether the created thread inherits its maker's policy and priority.
    AttrSetinheritsched(NameId, bool),
    AttrSetstacksize(NameId, Expr),
    Create(Var, Option<NameId>, NameId, Expr),
    Join(Expr, Var),
    Detach(Expr),
    Yield,
    Cancel(Expr),
    Testcancel,
    /// Whether general cancelability is on.
    Setcancel(bool, Var),
    /// Whether asynchronous cancelability is on.
    Setasynccancel(bool, Var),
    Setprio(Expr, Expr, Var),
    Getprio(Expr, Var),
    Setscheduler(Expr, Policy, Expr, Var),
    Getscheduler(Expr, Var),
    DelayNp(Expr),
    GetExpirationNp(Expr, Var),
    MutexattrCreate(NameId),
    MutexattrSetkindNp(NameId, Kind),
    MutexattrDelete(NameId),
    MutexInit(NameId, Option<NameId>),
    MutexDestroy(NameId),
    MutexLock(NameId),
    MutexTrylock(NameId, Var),
    MutexUnlock(NameId),
    LockGlobalNp,
    UnlockGlobalNp,
    CondInit(NameId),
    CondDestroy(NameId),
    CondWait(NameId, NameId),
    CondTimedwait(NameId, NameId, Expr),
    CondSignal(NameId),
    CondBroadcast(NameId),
    /// The once block and its routine.
    Once(NameId, NameId),
    /// The key and its destructor.
    Keycreate(NameId, Option<NameId>),
    Setspecific(NameId, Expr),
    Getspecific(NameId, Var),
    Read(NameId, Var, Var),
    Write(NameId, Expr),
    Close(NameId),
}

impl DceCall {
    /// A call that is equal to this one.
    pub fn copy(&self, alloc: Global) -> Result<DceCall, AllocError>
        ensures { IfOk result (λ copy. copy ≡ self.now) }
    {
        match self {
            Self::AttrCreate(n) => Ok(Self::AttrCreate(*n)),
            Self::AttrDelete(n) => Ok(Self::AttrDelete(*n)),
            Self::AttrSetsched(n, policy) => Ok(Self::AttrSetsched(*n, *policy)),
            Self::AttrSetprio(n, e) => Ok(Self::AttrSetprio(*n, e.copy(alloc)?)),
            Self::AttrSetinheritsched(n, inherits) => Ok(Self::AttrSetinheritsched(*n, *inherits)),
            Self::AttrSetstacksize(n, e) => Ok(Self::AttrSetstacksize(*n, e.copy(alloc)?)),
            Self::Create(v, attr, n, e) => Ok(Self::Create(*v, *attr, *n, e.copy(alloc)?)),
            Self::Join(e, v) => Ok(Self::Join(e.copy(alloc)?, *v)),
            Self::Detach(e) => Ok(Self::Detach(e.copy(alloc)?)),
            Self::Yield => Ok(Self::Yield),
            Self::Cancel(e) => Ok(Self::Cancel(e.copy(alloc)?)),
            Self::Testcancel => Ok(Self::Testcancel),
            Self::Setcancel(on, v) => Ok(Self::Setcancel(*on, *v)),
            Self::Setasynccancel(on, v) => Ok(Self::Setasynccancel(*on, *v)),
            Self::Setprio(e1, e2, v) => Ok(Self::Setprio(e1.copy(alloc)?, e2.copy(alloc)?, *v)),
            Self::Getprio(e, v) => Ok(Self::Getprio(e.copy(alloc)?, *v)),
            Self::Setscheduler(e1, policy, e2, v) => {
                let e1 = e1.copy(alloc)?;
                Ok(Self::Setscheduler(e1, *policy, e2.copy(alloc)?, *v))
            }
            Self::Getscheduler(e, v) => Ok(Self::Getscheduler(e.copy(alloc)?, *v)),
            Self::DelayNp(e) => Ok(Self::DelayNp(e.copy(alloc)?)),
            Self::GetExpirationNp(e, v) => Ok(Self::GetExpirationNp(e.copy(alloc)?, *v)),
            Self::MutexattrCreate(n) => Ok(Self::MutexattrCreate(*n)),
            Self::MutexattrSetkindNp(n, kind) => Ok(Self::MutexattrSetkindNp(*n, *kind)),
            Self::MutexattrDelete(n) => Ok(Self::MutexattrDelete(*n)),
            Self::MutexInit(n, attr) => Ok(Self::MutexInit(*n, *attr)),
            Self::MutexDestroy(n) => Ok(Self::MutexDestroy(*n)),
            Self::MutexLock(n) => Ok(Self::MutexLock(*n)),
            Self::MutexTrylock(n, v) => Ok(Self::MutexTrylock(*n, *v)),
            Self::MutexUnlock(n) => Ok(Self::MutexUnlock(*n)),
            Self::LockGlobalNp => Ok(Self::LockGlobalNp),
            Self::UnlockGlobalNp => Ok(Self::UnlockGlobalNp),
            Self::CondInit(n) => Ok(Self::CondInit(*n)),
            Self::CondDestroy(n) => Ok(Self::CondDestroy(*n)),
            Self::CondWait(n1, n2) => Ok(Self::CondWait(*n1, *n2)),
            Self::CondTimedwait(n1, n2, e) => Ok(Self::CondTimedwait(*n1, *n2, e.copy(alloc)?)),
            Self::CondSignal(n) => Ok(Self::CondSignal(*n)),
            Self::CondBroadcast(n) => Ok(Self::CondBroadcast(*n)),
            Self::Once(n1, n2) => Ok(Self::Once(*n1, *n2)),
            Self::Keycreate(n, destructor) => Ok(Self::Keycreate(*n, *destructor)),
            Self::Setspecific(n, e) => Ok(Self::Setspecific(*n, e.copy(alloc)?)),
            Self::Getspecific(n, v) => Ok(Self::Getspecific(*n, *v)),
            Self::Read(n, v1, v2) => Ok(Self::Read(*n, *v1, *v2)),
            Self::Write(n, e) => Ok(Self::Write(*n, e.copy(alloc)?)),
            Self::Close(n) => Ok(Self::Close(*n)),
        }
    }
}
