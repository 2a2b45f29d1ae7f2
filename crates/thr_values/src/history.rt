//! The lines of a history.

use crate::call::{Arg, CallWord};
use crate::exception::Exc;
use crate::number::{Line, NameId, Tid};
use crate::reply::Reply;

/// Whose line it is: a processor's, by its number from 0 on, a thread's or the clock's.
#[derive(Clone, Copy, Debug, PartialEq, Eq)]
pub enum Who {
    Proc(u32),
    Thread(Tid),
    Clock,
}

/// What a line says, its fields in their order (docs/journal.md, "The lines"). Scopes and unwindings are numbered from 1
/// in each thread, each by a count of its own.
#[derive(Clone, Copy, Debug, PartialEq, Eq)]
pub enum What {
    Run(Tid),
    Clock(i64),
    Call {
        call: CallWord,
        args: [Arg; 4],
        reply: Reply,
    },
    Ret(Reply),
    /// The mutex that was given, or the global lock where there is no name.
    Gift(Option<NameId>),
    Say(i64),
    Set(Line, i64),
    If(Line, i64),
    While(Line, i64),
    CallAt(Line, i64),
    Return(Line, i64),
    Raise(u64, Exc),
    Reraise(u64, Exc),
    Deliver(u64, Line),
    Exit(u64, i64),
    Try(u64, Line),
    Endtry(u64),
    Catch(u64, u64, Line),
    Endcatch(u64),
    /// The scope, and the unwinding for which the body runs, or 0.
    Finally(u64, u64),
    Endfin(u64),
    Once(u64, NameId),
    Done(u64),
    Undone(u64, u64),
    Destroy(u64, NameId, i64),
    Enddes(u64),
    Lost(u64, u64),
    Bottom(u64, i64),
    Pause,
    End(i64),
}

/// One numbered line of a journal without its number.
#[derive(Clone, Copy, Debug, PartialEq, Eq)]
pub struct Entry {
    pub who: Who,
    pub what: What,
}
