//! Groups of calls.
ghost use Rattle.std.specs.Prelude.{◌≡◌};
ghost use Rattle.thr_services.specs.Groups.{group_of};

use thr_syntax::dce::DceCall;

/// What a call is on (docs/script.md, "Calls").
#[derive(Clone, Copy, Debug, PartialEq, Eq)]
pub enum Group {
    Cells,
    Threads,
    Ranks,
    Cancels,
    Mutexes,
    Locks,
    Conds,
    Times,
    Onces,
    Pipes,
}

/// The group of a call.
pub fn group_of(call: &DceCall) -> Group
    ensures { result ≡ group_of call.now }
{
    match call {
        DceCall::Create(_, _, _, _) | DceCall::Join(_, _) | DceCall::Detach(_) | DceCall::Yield =>
            Group::Threads,
        DceCall::Setprio(_, _, _)
        | DceCall::Getprio(_, _)
        | DceCall::Setscheduler(_, _, _, _)
        | DceCall::Getscheduler(_, _) => Group::Ranks,
        DceCall::Cancel(_)
        | DceCall::Testcancel
        | DceCall::Setcancel(_, _)
        | DceCall::Setasynccancel(_, _) => Group::Cancels,
        DceCall::MutexattrCreate(_)
        | DceCall::MutexattrSetkindNp(_, _)
        | DceCall::MutexattrDelete(_)
        | DceCall::MutexInit(_, _)
        | DceCall::MutexDestroy(_) => Group::Mutexes,
        DceCall::MutexLock(_)
        | DceCall::MutexTrylock(_, _)
        | DceCall::MutexUnlock(_)
        | DceCall::LockGlobalNp
        | DceCall::UnlockGlobalNp => Group::Locks,
        DceCall::CondInit(_)
        | DceCall::CondDestroy(_)
        | DceCall::CondWait(_, _)
        | DceCall::CondTimedwait(_, _, _)
        | DceCall::CondSignal(_)
        | DceCall::CondBroadcast(_) => Group::Conds,
        DceCall::DelayNp(_) | DceCall::GetExpirationNp(_, _) => Group::Times,
        DceCall::Once(_, _)
        | DceCall::Keycreate(_, _)
        | DceCall::Setspecific(_, _)
        | DceCall::Getspecific(_, _) => Group::Onces,
        DceCall::Read(_, _, _) | DceCall::Write(_, _) | DceCall::Close(_) => Group::Pipes,
        _ => Group::Cells,
    }
}
