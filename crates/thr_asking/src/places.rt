//! What stands at the places of a call's line.
ghost use Rattle.std.specs.Prelude.{◌≡◌, [], ◌∷◌};
ghost use Rattle.thr_values.specs.declared.call.Arg.TheVariants as arg;
ghost use Rattle.thr_remainder.specs.Calls.{policy_place, kind_place, first_place, shape_of};
ghost use Rattle.thr_services.specs.Answers.{listed};
ghost use Rattle.thr_asking.specs.Saying.{name_argument, first_argument, second_argument, said_as, placed};

use thr_services::answer::Numbers;
use thr_syntax::dce::DceCall;
use thr_values::call::{Arg, CallWord};
use thr_values::number::NameId;
use thr_values::reply::Kind;
use thr_values::scheduling::Policy;

/// A call's word with its arguments (docs/journal.md, "Calls").
#[derive(Clone, Copy)]
pub struct Said {
    pub call: CallWord,
    pub args: [Arg; 4],
}

// ---- arguments

/// A policy, by its place among the four.
fn policy_argument(policy: Policy) -> Arg
    ensures { result ≡ arg.Word (policy_place policy) }
{
    match policy {
        Policy::Fifo => Arg::Word(0),
        Policy::Rr => Arg::Word(1),
        Policy::Fg => Arg::Word(2),
        Policy::Bg => Arg::Word(3),
    }
}

/// A kind of mutexes, by its place among the three.
fn kind_argument(kind: Kind) -> Arg
    ensures { result ≡ arg.Word (kind_place kind) }
{
    match kind {
        Kind::Fast => Arg::Word(0),
        Kind::Recursive => Arg::Word(1),
        Kind::Nonrecursive => Arg::Word(2),
    }
}

/// The first of two words, or the second.
fn word_argument(first: bool) -> Arg
    ensures { result ≡ arg.Word (first_place first) }
{
    if first { Arg::Word(0) } else { Arg::Word(1) }
}

/// A name, or the word that stands in its place.
fn name_argument(name: Option<NameId>) -> Arg
    ensures { result ≡ name_argument name }
{
    match name {
        Some(name) => Arg::Name(name),
        None => Arg::Word(0),
    }
}

/// The first value, if there is one.
pub fn first_argument(ns: Numbers) -> Arg
    ensures { result ≡ first_argument (listed ns) }
{
    match ns {
        Numbers::Nothing => Arg::Nothing,
        Numbers::One(n) => Arg::Num(n),
        Numbers::Two(n, _) => Arg::Num(n),
    }
}

/// The second value, if there is one.
pub fn second_argument(ns: Numbers) -> Arg
    ensures { result ≡ second_argument (listed ns) }
{
    match ns {
        Numbers::Nothing => Arg::Nothing,
        Numbers::One(_) => Arg::Nothing,
        Numbers::Two(_, n) => Arg::Num(n),
    }
}

// ---- words with arguments

/// A call without arguments.
fn bare(call: CallWord) -> Said
    ensures { result ≡ said_as call [] }
{
    Said {
        call,
        args: [Arg::Nothing, Arg::Nothing, Arg::Nothing, Arg::Nothing],
    }
}

/// A call with one argument.
fn one(call: CallWord, a: Arg) -> Said
    ensures { result ≡ said_as call (a ∷ []) }
{
    Said {
        call,
        args: [a, Arg::Nothing, Arg::Nothing, Arg::Nothing],
    }
}

/// A call with two arguments.
fn two(call: CallWord, a: Arg, b: Arg) -> Said
    ensures { result ≡ said_as call (a ∷ b ∷ []) }
{
    Said {
        call,
        args: [a, b, Arg::Nothing, Arg::Nothing],
    }
}

/// A call with three arguments.
fn three(call: CallWord, a: Arg, b: Arg, c: Arg) -> Said
    ensures { result ≡ said_as call (a ∷ b ∷ c ∷ []) }
{
    Said {
        call,
        args: [a, b, c, Arg::Nothing],
    }
}

/// The word of a call with its arguments, where these are the values of its expressions.
#[tactic(auto, using(crate::proofs::PartLaws::named_arguments), unfolding(thr_remainder::specs::Calls::shape_of))]
pub fn said_of(call: &DceCall, x: Arg, y: Arg) -> Said
    ensures { result ≡ said_as (shape_of call.now).word (placed x y (shape_of call.now).parts) }
{
    match call {
        DceCall::AttrCreate(n) => one(CallWord::AttrCreate, Arg::Name(*n)),
        DceCall::AttrDelete(n) => one(CallWord::AttrDelete, Arg::Name(*n)),
        DceCall::AttrSetsched(n, p) => two(
            CallWord::AttrSetsched,
            Arg::Name(*n),
            policy_argument(*p),
        ),
        DceCall::AttrSetprio(n, _) => two(CallWord::AttrSetprio, Arg::Name(*n), x),
        DceCall::AttrSetinheritsched(n, inherits) => two(
            CallWord::AttrSetinheritsched,
            Arg::Name(*n),
            word_argument(*inherits),
        ),
        DceCall::AttrSetstacksize(n, _) => two(CallWord::AttrSetstacksize, Arg::Name(*n), x),
        DceCall::Create(_, attr, n, _) => three(
            CallWord::Create,
            name_argument(*attr),
            Arg::Name(*n),
            x,
        ),
        DceCall::Join(_, _) => one(CallWord::Join, x),
        DceCall::Detach(_) => one(CallWord::Detach, x),
        DceCall::Yield => bare(CallWord::Yield),
        DceCall::Cancel(_) => one(CallWord::Cancel, x),
        DceCall::Testcancel => bare(CallWord::Testcancel),
        DceCall::Setcancel(on, _) => one(CallWord::Setcancel, word_argument(*on)),
        DceCall::Setasynccancel(on, _) => one(CallWord::Setasynccancel, word_argument(*on)),
        DceCall::Setprio(_, _, _) => two(CallWord::Setprio, x, y),
        DceCall::Getprio(_, _) => one(CallWord::Getprio, x),
        DceCall::Setscheduler(_, p, _, _) => three(
            CallWord::Setscheduler,
            x,
            policy_argument(*p),
            y,
        ),
        DceCall::Getscheduler(_, _) => one(CallWord::Getscheduler, x),
        DceCall::DelayNp(_) => one(CallWord::DelayNp, x),
        DceCall::GetExpirationNp(_, _) => one(CallWord::GetExpirationNp, x),
        DceCall::MutexattrCreate(n) => one(CallWord::MutexattrCreate, Arg::Name(*n)),
        DceCall::MutexattrSetkindNp(n, k) => two(
            CallWord::MutexattrSetkindNp,
            Arg::Name(*n),
            kind_argument(*k),
        ),
        DceCall::MutexattrDelete(n) => one(CallWord::MutexattrDelete, Arg::Name(*n)),
        DceCall::MutexInit(n, attr) => two(
            CallWord::MutexInit,
            Arg::Name(*n),
            name_argument(*attr),
        ),
        DceCall::MutexDestroy(n) => one(CallWord::MutexDestroy, Arg::Name(*n)),
        DceCall::MutexLock(n) => one(CallWord::MutexLock, Arg::Name(*n)),
        DceCall::MutexTrylock(n, _) => one(CallWord::MutexTrylock, Arg::Name(*n)),
        DceCall::MutexUnlock(n) => one(CallWord::MutexUnlock, Arg::Name(*n)),
        DceCall::LockGlobalNp => bare(CallWord::LockGlobalNp),
        DceCall::UnlockGlobalNp => bare(CallWord::UnlockGlobalNp),
        DceCall::CondInit(n) => one(CallWord::CondInit, Arg::Name(*n)),
        DceCall::CondDestroy(n) => one(CallWord::CondDestroy, Arg::Name(*n)),
        DceCall::CondWait(c, m) => two(CallWord::CondWait, Arg::Name(*c), Arg::Name(*m)),
        DceCall::CondTimedwait(c, m, _) => three(
            CallWord::CondTimedwait,
            Arg::Name(*c),
            Arg::Name(*m),
            x,
        ),
        DceCall::CondSignal(n) => one(CallWord::CondSignal, Arg::Name(*n)),
        DceCall::CondBroadcast(n) => one(CallWord::CondBroadcast, Arg::Name(*n)),
        DceCall::Once(block, routine) => two(
            CallWord::Once,
            Arg::Name(*block),
            Arg::Name(*routine),
        ),
        DceCall::Keycreate(n, destructor) => two(
            CallWord::Keycreate,
            Arg::Name(*n),
            name_argument(*destructor),
        ),
        DceCall::Setspecific(n, _) => two(CallWord::Setspecific, Arg::Name(*n), x),
        DceCall::Getspecific(n, _) => one(CallWord::Getspecific, Arg::Name(*n)),
        DceCall::Read(n, _, _) => one(CallWord::Read, Arg::Name(*n)),
        DceCall::Write(n, _) => two(CallWord::Write, Arg::Name(*n), x),
        DceCall::Close(n) => one(CallWord::Close, Arg::Name(*n)),
    }
}
