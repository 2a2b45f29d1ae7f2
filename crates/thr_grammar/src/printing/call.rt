//! The lines of calls of the thread service.

ghost use Rattle.std.specs.Prelude.{◌≡◌, ◌++◌, OnOk};
ghost use Rattle.thr_syntax.specs.Canon.{line};
ghost use Rattle.thr_syntax.specs.Spelling.{dce_words};
ghost use Rattle.thr_grammar.specs.Printing.{scope_of};

use crate::printing::line::{
    add_bare, add_two_values_with, add_value, add_value_with, add_values_between, add_with,
    add_with_three, add_with_three_and_value, add_with_two, add_with_two_and_value, add_with_value,
};
use crate::printing::scope::Scope;
use std::alloc::AllocError;
use thr_syntax::dce::DceCall;
use thr_text::fixed::{cancel_text, inherit_text, kind_text, policy_text};
use thr_text::head::Head;
use thr_values::call::CallWord;

/// Adds the line of a call.
#[tactic(auto, unfolding(thr_text::specs::Heads::head_word))]
pub(crate) fn add_dce(
    out: &mut Vec<u8>,
    scope: &Scope<'_>,
    call: &DceCall,
) -> Result<(), AllocError>
    ensures { OnOk result (out.new.items ≡ out.old.items ++ line (dce_words (scope_of scope.now) call.now)) }
{
    match call {
        DceCall::AttrCreate(n) => add_with(out, Head::Dce(CallWord::AttrCreate), scope.name(*n)),
        DceCall::AttrDelete(n) => add_with(out, Head::Dce(CallWord::AttrDelete), scope.name(*n)),
        DceCall::AttrSetsched(n, policy) => add_with_two(
            out,
            Head::Dce(CallWord::AttrSetsched),
            scope.name(*n),
            policy_text(*policy),
        ),
        DceCall::AttrSetprio(n, e) => add_with_value(
            out,
            scope,
            Head::Dce(CallWord::AttrSetprio),
            scope.name(*n),
            e,
        ),
        DceCall::AttrSetinheritsched(n, inherits) => add_with_two(
            out,
            Head::Dce(CallWord::AttrSetinheritsched),
            scope.name(*n),
            inherit_text(*inherits),
        ),
        DceCall::AttrSetstacksize(n, e) => add_with_value(
            out,
            scope,
            Head::Dce(CallWord::AttrSetstacksize),
            scope.name(*n),
            e,
        ),
        DceCall::Create(v, attr, n, e) => add_with_three_and_value(
            out,
            scope,
            Head::Dce(CallWord::Create),
            scope.variable(*v),
            scope.name_or(b"default", *attr),
            scope.name(*n),
            e,
        ),
        DceCall::Join(e, v) => add_value_with(
            out,
            scope,
            Head::Dce(CallWord::Join),
            e,
            scope.variable(*v),
        ),
        DceCall::Detach(e) => add_value(out, scope, Head::Dce(CallWord::Detach), e),
        DceCall::Yield => add_bare(out, Head::Dce(CallWord::Yield)),
        DceCall::Cancel(e) => add_value(out, scope, Head::Dce(CallWord::Cancel), e),
        DceCall::Testcancel => add_bare(out, Head::Dce(CallWord::Testcancel)),
        DceCall::Setcancel(on, v) => add_with_two(
            out,
            Head::Dce(CallWord::Setcancel),
            cancel_text(*on),
            scope.variable(*v),
        ),
        DceCall::Setasynccancel(on, v) => add_with_two(
            out,
            Head::Dce(CallWord::Setasynccancel),
            cancel_text(*on),
            scope.variable(*v),
        ),
        DceCall::Setprio(e1, e2, v) => add_two_values_with(
            out,
            scope,
            Head::Dce(CallWord::Setprio),
            e1,
            e2,
            scope.variable(*v),
        ),
        DceCall::Getprio(e, v) => add_value_with(
            out,
            scope,
            Head::Dce(CallWord::Getprio),
            e,
            scope.variable(*v),
        ),
        DceCall::Setscheduler(e1, policy, e2, v) => add_values_between(
            out,
            scope,
            Head::Dce(CallWord::Setscheduler),
            e1,
            policy_text(*policy),
            e2,
            scope.variable(*v),
        ),
        DceCall::Getscheduler(e, v) => add_value_with(
            out,
            scope,
            Head::Dce(CallWord::Getscheduler),
            e,
            scope.variable(*v),
        ),
        DceCall::DelayNp(e) => add_value(out, scope, Head::Dce(CallWord::DelayNp), e),
        DceCall::GetExpirationNp(e, v) => add_value_with(
            out,
            scope,
            Head::Dce(CallWord::GetExpirationNp),
            e,
            scope.variable(*v),
        ),
        DceCall::MutexattrCreate(n) => add_with(
            out,
            Head::Dce(CallWord::MutexattrCreate),
            scope.name(*n),
        ),
        DceCall::MutexattrSetkindNp(n, kind) => add_with_two(
            out,
            Head::Dce(CallWord::MutexattrSetkindNp),
            scope.name(*n),
            kind_text(*kind),
        ),
        DceCall::MutexattrDelete(n) => add_with(
            out,
            Head::Dce(CallWord::MutexattrDelete),
            scope.name(*n),
        ),
        DceCall::MutexInit(n, attr) => add_with_two(
            out,
            Head::Dce(CallWord::MutexInit),
            scope.name(*n),
            scope.name_or(b"default", *attr),
        ),
        DceCall::MutexDestroy(n) => add_with(
            out,
            Head::Dce(CallWord::MutexDestroy),
            scope.name(*n),
        ),
        DceCall::MutexLock(n) => add_with(out, Head::Dce(CallWord::MutexLock), scope.name(*n)),
        DceCall::MutexTrylock(n, v) => add_with_two(
            out,
            Head::Dce(CallWord::MutexTrylock),
            scope.name(*n),
            scope.variable(*v),
        ),
        DceCall::MutexUnlock(n) => add_with(out, Head::Dce(CallWord::MutexUnlock), scope.name(*n)),
        DceCall::LockGlobalNp => add_bare(out, Head::Dce(CallWord::LockGlobalNp)),
        DceCall::UnlockGlobalNp => add_bare(out, Head::Dce(CallWord::UnlockGlobalNp)),
        DceCall::CondInit(n) => add_with(out, Head::Dce(CallWord::CondInit), scope.name(*n)),
        DceCall::CondDestroy(n) => add_with(out, Head::Dce(CallWord::CondDestroy), scope.name(*n)),
        DceCall::CondWait(n1, n2) => add_with_two(
            out,
            Head::Dce(CallWord::CondWait),
            scope.name(*n1),
            scope.name(*n2),
        ),
        DceCall::CondTimedwait(n1, n2, e) => add_with_two_and_value(
            out,
            scope,
            Head::Dce(CallWord::CondTimedwait),
            scope.name(*n1),
            scope.name(*n2),
            e,
        ),
        DceCall::CondSignal(n) => add_with(out, Head::Dce(CallWord::CondSignal), scope.name(*n)),
        DceCall::CondBroadcast(n) => add_with(
            out,
            Head::Dce(CallWord::CondBroadcast),
            scope.name(*n),
        ),
        DceCall::Once(n1, n2) => add_with_two(
            out,
            Head::Dce(CallWord::Once),
            scope.name(*n1),
            scope.name(*n2),
        ),
        DceCall::Keycreate(n, destructor) => add_with_two(
            out,
            Head::Dce(CallWord::Keycreate),
            scope.name(*n),
            scope.name_or(b"none", *destructor),
        ),
        DceCall::Setspecific(n, e) => add_with_value(
            out,
            scope,
            Head::Dce(CallWord::Setspecific),
            scope.name(*n),
            e,
        ),
        DceCall::Getspecific(n, v) => add_with_two(
            out,
            Head::Dce(CallWord::Getspecific),
            scope.name(*n),
            scope.variable(*v),
        ),
        DceCall::Read(n, v1, v2) => add_with_three(
            out,
            Head::Dce(CallWord::Read),
            scope.name(*n),
            scope.variable(*v1),
            scope.variable(*v2),
        ),
        DceCall::Write(n, e) => add_with_value(
            out,
            scope,
            Head::Dce(CallWord::Write),
            scope.name(*n),
            e,
        ),
        DceCall::Close(n) => add_with(out, Head::Dce(CallWord::Close), scope.name(*n)),
    }
}
