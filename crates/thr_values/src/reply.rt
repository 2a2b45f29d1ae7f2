//! What calls reply, and what an error reply is to its caller.

ghost use Rattle.std.specs.Prelude.{◌≡◌};
ghost use Rattle.thr_values.specs.Replies.{errno_of, error_exc_of};

use crate::exception::{BADPARAM_E, EXHAUST_E, EXISTENCE_E, Exc, IN_USE_E, PIPE_E, USE_ERROR_E};

/// The kind of a mutex, which says what a second lock by its owner does (docs/machine.md, "Mutexes").
#[derive(Clone, Copy, Debug, PartialEq, Eq)]
pub enum Kind {
    Fast,
    Recursive,
    Nonrecursive,
}

/// What `pthread_cancel` did (docs/machine.md, "Cancels").
#[derive(Clone, Copy, Debug, PartialEq, Eq)]
pub enum Effect {
    Ended,
    Merged,
    Pending,
    Wakes,
}

/// The reply of a call (docs/journal.md, "Replies"). `Done` is written `ok`.
#[derive(Clone, Copy, Debug, PartialEq, Eq)]
pub enum Reply {
    Done,
    Value(i64),
    Eof,
    Effect(Effect),
    Blocks,
    Einval,
    Eperm,
    Edeadlk,
    Ebusy,
    Esrch,
    Eagain,
    Epipe,
}

/// The number that `err` has after this reply: 0 where it is no error. A reply of `Blocks` doesn't set `err`.
pub fn errno(reply: &Reply) -> i64
    ensures { result ≡ errno_of reply.now }
{
    match reply {
        Reply::Eperm => 1,
        Reply::Esrch => 3,
        Reply::Eagain => 11,
        Reply::Ebusy => 16,
        Reply::Einval => 22,
        Reply::Epipe => 32,
        Reply::Edeadlk => 35,
        _ => 0,
    }
}

/// The exception that stands for an error reply where the script's interface is `exc`. That of a timed wait whose time
/// is past raises nothing all the same, which is its caller's affair.
pub fn error_exc(reply: &Reply) -> Option<Exc>
    ensures { result ≡ error_exc_of reply.now }
{
    match reply {
        Reply::Einval => Some(BADPARAM_E),
        Reply::Eperm | Reply::Edeadlk => Some(USE_ERROR_E),
        Reply::Esrch => Some(EXISTENCE_E),
        Reply::Ebusy => Some(IN_USE_E),
        Reply::Eagain => Some(EXHAUST_E),
        Reply::Epipe => Some(PIPE_E),
        _ => None,
    }
}
