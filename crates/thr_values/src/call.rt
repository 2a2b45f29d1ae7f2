//! The calls of the thread service, and their arguments in a journal.

use crate::number::NameId;

/// A call of the thread service, one for each call word (docs/journal.md, "Calls").
#[derive(Clone, Copy, Debug, PartialEq, Eq)]
pub enum CallWord {
    AttrCreate,
    AttrDelete,
    AttrSetsched,
    AttrSetprio,
    AttrSetinheritsched,
    AttrSetstacksize,
    Create,
    Join,
    Detach,
    Yield,
    Cancel,
    Testcancel,
    Setcancel,
    Setasynccancel,
    Setprio,
    Getprio,
    Setscheduler,
    Getscheduler,
    DelayNp,
    GetExpirationNp,
    MutexattrCreate,
    MutexattrSetkindNp,
    MutexattrDelete,
    MutexInit,
    MutexDestroy,
    MutexLock,
    MutexTrylock,
    MutexUnlock,
    LockGlobalNp,
    UnlockGlobalNp,
    CondInit,
    CondDestroy,
    CondWait,
    CondTimedwait,
    CondSignal,
    CondBroadcast,
    Once,
    Keycreate,
    Setspecific,
    Getspecific,
    Read,
    Write,
    Close,
}

/// An argument of a call line. A variable that takes the reply's value has no place there.
#[derive(Clone, Copy, Debug, PartialEq, Eq)]
pub enum Arg {
    /// The call has no argument at this place.
    Nothing,
    Name(NameId),
    /// The value of an expression.
    Num(i64),
    /// A fixed word, by its place among those that may stand there, from 0 on. `default` and `none` are 0.
    Word(u8),
}
