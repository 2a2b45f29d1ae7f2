//! The line of a head whose slots hold these values.

ghost use Rattle.std.specs.Prelude.{◌≡◌};
ghost use Rattle.thr_resolving.specs.Resolving.{call_of, routine_form, local_form, form_of};

use crate::values::Values;
use thr_syntax::dce::DceCall;
use thr_syntax::form::Form;
use thr_text::head::Head;
use thr_values::call::CallWord;
use thr_values::name::Name;
use thr_values::number::NameId;

/// The call of this word, which takes the values.
#[tactic(auto, unfolding(crate::specs::Resolving::call_of))]
fn call_of(call: CallWord, values: &mut Values) -> DceCall
    ensures { result ≡ call_of call values.old }
{
    match call {
        CallWord::AttrCreate => DceCall::AttrCreate(values.id()),
        CallWord::AttrDelete => DceCall::AttrDelete(values.id()),
        CallWord::AttrSetsched => DceCall::AttrSetsched(values.id(), values.policy()),
        CallWord::AttrSetprio => DceCall::AttrSetprio(values.id(), values.expression()),
        CallWord::AttrSetinheritsched => DceCall::AttrSetinheritsched(
            values.id(),
            values.inherit(),
        ),
        CallWord::AttrSetstacksize => DceCall::AttrSetstacksize(values.id(), values.expression()),
        CallWord::Create => DceCall::Create(
            values.variable(),
            values.maybe(),
            values.id(),
            values.expression(),
        ),
        CallWord::Join => DceCall::Join(values.expression(), values.variable()),
        CallWord::Detach => DceCall::Detach(values.expression()),
        CallWord::Yield => DceCall::Yield,
        CallWord::Cancel => DceCall::Cancel(values.expression()),
        CallWord::Testcancel => DceCall::Testcancel,
        CallWord::Setcancel => DceCall::Setcancel(values.cancel(), values.variable()),
        CallWord::Setasynccancel => DceCall::Setasynccancel(values.cancel(), values.variable()),
        CallWord::Setprio => DceCall::Setprio(
            values.expression(),
            values.expression(),
            values.variable(),
        ),
        CallWord::Getprio => DceCall::Getprio(values.expression(), values.variable()),
        CallWord::Setscheduler => DceCall::Setscheduler(
            values.expression(),
            values.policy(),
            values.expression(),
            values.variable(),
        ),
        CallWord::Getscheduler => DceCall::Getscheduler(values.expression(), values.variable()),
        CallWord::DelayNp => DceCall::DelayNp(values.expression()),
        CallWord::GetExpirationNp => DceCall::GetExpirationNp(
            values.expression(),
            values.variable(),
        ),
        CallWord::MutexattrCreate => DceCall::MutexattrCreate(values.id()),
        CallWord::MutexattrSetkindNp => DceCall::MutexattrSetkindNp(values.id(), values.kind()),
        CallWord::MutexattrDelete => DceCall::MutexattrDelete(values.id()),
        CallWord::MutexInit => DceCall::MutexInit(values.id(), values.maybe()),
        CallWord::MutexDestroy => DceCall::MutexDestroy(values.id()),
        CallWord::MutexLock => DceCall::MutexLock(values.id()),
        CallWord::MutexTrylock => DceCall::MutexTrylock(values.id(), values.variable()),
        CallWord::MutexUnlock => DceCall::MutexUnlock(values.id()),
        CallWord::LockGlobalNp => DceCall::LockGlobalNp,
        CallWord::UnlockGlobalNp => DceCall::UnlockGlobalNp,
        CallWord::CondInit => DceCall::CondInit(values.id()),
        CallWord::CondDestroy => DceCall::CondDestroy(values.id()),
        CallWord::CondWait => DceCall::CondWait(values.id(), values.id()),
        CallWord::CondTimedwait => DceCall::CondTimedwait(
            values.id(),
            values.id(),
            values.expression(),
        ),
        CallWord::CondSignal => DceCall::CondSignal(values.id()),
        CallWord::CondBroadcast => DceCall::CondBroadcast(values.id()),
        CallWord::Once => DceCall::Once(values.id(), values.id()),
        CallWord::Keycreate => DceCall::Keycreate(values.id(), values.maybe()),
        CallWord::Setspecific => DceCall::Setspecific(values.id(), values.expression()),
        CallWord::Getspecific => DceCall::Getspecific(values.id(), values.variable()),
        CallWord::Read => DceCall::Read(values.id(), values.variable(), values.variable()),
        CallWord::Write => DceCall::Write(values.id(), values.expression()),
        CallWord::Close => DceCall::Close(values.id()),
    }
}

fn routine_form(name: NameId, parameter: Option<Name>) -> Form
    ensures { result ≡ routine_form name parameter }
{
    match parameter {
        Some(parameter) => Form::Routine(name, parameter),
        None => Form::End,
    }
}

fn local_form(name: Option<Name>) -> Form
    ensures { result ≡ local_form name }
{
    match name {
        Some(name) => Form::Local(name),
        None => Form::End,
    }
}

/// The line of this head, which takes the values.
#[tactic(auto, unfolding(crate::specs::Resolving::form_of))]
pub fn form_of(head: Head, values: &mut Values) -> Form
    ensures { result ≡ form_of head values.old }
{
    match head {
        Head::Interface => Form::Interface(values.interface()),
        Head::Limit => Form::Limit(values.size()),
        Head::Shared => Form::Shared(values.id(), values.number()),
        Head::Exception => Form::Exception(values.id()),
        Head::Status => Form::Status(values.id(), values.number()),
        Head::Mutex => Form::Mutex(values.id()),
        Head::Mutexattr => Form::MutexAttr(values.id()),
        Head::Cond => Form::Cond(values.id()),
        Head::Attr => Form::Attr(values.id()),
        Head::Key => Form::Key(values.id()),
        Head::Once => Form::Once(values.id()),
        Head::Pipe => Form::Pipe(values.id(), values.size()),
        Head::Routine => routine_form(values.id(), values.own()),
        Head::Local => local_form(values.own()),
        Head::Set => Form::Set(values.variable(), values.expression()),
        Head::Say => Form::Say(values.expression()),
        Head::If => Form::If(values.expression()),
        Head::Else => Form::Else,
        Head::While => Form::While(values.expression()),
        Head::Try => Form::Try,
        Head::Catch => Form::Catch(values.id()),
        Head::CatchAll => Form::CatchAll,
        Head::Finally => Form::Finally,
        Head::Endtry => Form::Endtry,
        Head::Raise => Form::Raise(values.id()),
        Head::Reraise => Form::Reraise,
        Head::Call => Form::Call(values.id(), values.expression(), values.receiver()),
        Head::Return => Form::Return(values.expression()),
        Head::Exit => Form::Exit(values.expression()),
        Head::End => Form::End,
        Head::Dce(call) => Form::Dce(call_of(call, values)),
    }
}
