//! The lines that a report counts.

ghost use Rattle.std.specs.Prelude.{◌≡◌};
ghost use Rattle.thr_values.specs.declared.number.NameId.{NameId};
ghost use Rattle.thr_verdict.specs.Report.{is_creation, is_end, is_call, is_blocking_call, is_raise, is_delivery, is_catch, is_first, gets, acquires};
ghost use Rattle.thr_report.specs.Counting.{is_the_name};

use thr_values::call::{Arg, CallWord};
use thr_values::history::What;
use thr_values::number::NameId;
use thr_values::reply::Reply;

/// Whether a thread is created.
pub(crate) fn is_creation(what: &What) -> bool
    ensures { result ≡ is_creation what.now }
{
    matches!(
        what,
        What::Call {
            call: CallWord::Create,
            reply: Reply::Value(_),
            ..
        }
    )
}

/// Whether a thread ends.
pub(crate) fn is_end(what: &What) -> bool
    ensures { result ≡ is_end what.now }
{
    matches!(what, What::End(_))
}

/// Whether a call of the thread service is made.
pub(crate) fn is_call(what: &What) -> bool
    ensures { result ≡ is_call what.now }
{
    matches!(what, What::Call { .. })
}

/// Whether a call blocks.
pub(crate) fn is_blocking_call(what: &What) -> bool
    ensures { result ≡ is_blocking_call what.now }
{
    matches!(
        what,
        What::Call {
            reply: Reply::Blocks,
            ..
        }
    )
}

/// Whether an exception begins to unwind.
pub(crate) fn is_raise(what: &What) -> bool
    ensures { result ≡ is_raise what.now }
{
    matches!(what, What::Raise(_, _) | What::Reraise(_, _))
}

/// Whether a cancel is delivered.
pub(crate) fn is_delivery(what: &What) -> bool
    ensures { result ≡ is_delivery what.now }
{
    matches!(what, What::Deliver(_, _))
}

/// Whether a clause catches.
pub(crate) fn is_catch(what: &What) -> bool
    ensures { result ≡ is_catch what.now }
{
    matches!(what, What::Catch(_, _, _))
}

/// Whether a call with this reply gets the mutex that it names.
fn gets(call: CallWord, reply: Reply) -> bool
    ensures { result ≡ gets call reply }
{
    match call {
        CallWord::MutexLock => matches!(reply, Reply::Done),
        CallWord::MutexTrylock => matches!(reply, Reply::Value(1)),
        _ => false,
    }
}

/// The name that a call has as its first argument, if it has one.
fn first_name(args: &[Arg; 4]) -> Option<NameId>
    ensures { (m : NameId) → is_first m args.now ≡ is_the_name m result }
{
    match args {
        [Arg::Name(name), ..] => Some(*name),
        _ => None,
    }
}

/// The mutex that a thread gets, if it gets one.
pub(crate) fn acquired_by(what: &What) -> Option<NameId>
    ensures { (m : NameId) → acquires m what.now ≡ is_the_name m result }
{
    match what {
        What::Call { call, args, reply } => {
            if gets(*call, *reply) {
                first_name(args)
            } else {
                None
            }
        }
        What::Gift(mutex) => *mutex,
        _ => None,
    }
}
