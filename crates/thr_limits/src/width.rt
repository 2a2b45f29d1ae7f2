//! How wide lines are, which are measured and not built.

ghost use Rattle.std.specs.Prelude.{◌≡◌, ◌+◌, ◌^◌, ◌<◌, ◌≤◌, nat_le, ◌&&◌, length};
ghost use Rattle.std.specs.Fmt.{decimal, signed_decimal};
ghost use Rattle.thr_values.specs.Words as fixed;
ghost use Rattle.thr_syntax.specs.Spelling as syntax;
ghost use Rattle.thr_limits.specs.Capped.{capped};
ghost use Rattle.thr_limits.specs.Widths.{nothing, after_word, after_words, spelled};

use thr_syntax::dce::DceCall;
use thr_syntax::expr::{ExcRef, Expr, Op, Var};
use thr_text::fixed::{cancel_text, inherit_text, kind_text, operator_text, policy_text};
use thr_text::head::Head;
use thr_values::call::CallWord;
use thr_values::name::Name;
use thr_values::number::NameId;
use thr_values::reply::Kind;
use thr_values::scheduling::Policy;

/// The names of a script and of a routine's parameter and locals.
#[derive(Clone, Copy)]
pub struct Scope<'a> {
    pub names: &'a [Name],
    pub locals: &'a [Name],
}

/// How many words a line has so far, and how many bytes, with a space or the line's end after each word. Neither passes
/// the greatest number of its type.
#[derive(Clone, Copy)]
pub struct Width {
    pub words: u32,
    pub bytes: u32,
}

/// A count and what is added to it, as far as the type goes.
pub fn add(count: u32, more: u32) -> u32
    ensures { result ≡ capped (count + more) }
{
    count.saturating_add(more)
}

/// A number as far as the type goes.
pub fn cap(n: usize) -> u32
    ensures { result ≡ capped n }
{
    if n < 4294967295 { n as u32 } else { 4294967295 }
}

/// How many digits a number has.
fn digit_count(n: u64) -> u32
    ensures text { result ≡ length (decimal n) }
    ensures few { result ≤ 20 }
{
    let mut count: u32 = 1;
    let mut left = n;
    while left >= 10 {
        left /= 10;
        count += 1;
    }
    count
}

/// The text of a name, empty where there is none.
fn name_at(names: &[Name], at: usize) -> &[u8]
    ensures { result.now ≡ syntax.name_at names.now at }
{
    match names.get(at) {
        Some(name) => name.as_slice(),
        None => b"",
    }
}

impl Width {
    ghost use Rattle.std.specs.Prelude.{codes};

    /// The width of a line with no word yet.
    pub fn new() -> Width
        ensures { result ≡ nothing }
    {
        Width { words: 0, bytes: 0 }
    }

    /// With one word more.
    pub fn word(self, word: &[u8]) -> Width
        ensures { result ≡ after_word self word.now }
    {
        Width {
            words: add(self.words, 1),
            bytes: add(add(self.bytes, cap(word.len())), 1),
        }
    }

    /// With a number more.
    pub fn number(self, n: i64) -> Width
        ensures { result ≡ after_word self (signed_decimal n) }
    {
        let sign = if n < 0 { 1 } else { 0 };
        Width {
            words: add(self.words, 1),
            bytes: add(self.bytes, digit_count(n.unsigned_abs()) + sign + 1),
        }
    }

    /// With a name more.
    pub fn name(self, scope: &Scope, name: NameId) -> Width
        ensures { result ≡ after_word self (syntax.name_of (spelled scope.now) name) }
    {
        self.word(name_at(scope.names, usize::from(name.0)))
    }

    /// With a name more, or with this word where there is none.
    fn name_or(self, word: &[u8], scope: &Scope, name: Option<NameId>) -> Width
        ensures { result ≡ after_word self (syntax.name_or word.now (spelled scope.now) name) }
    {
        match name {
            Some(name) => self.name(scope, name),
            None => self.word(word),
        }
    }

    /// With the name of a parameter or local more.
    pub fn local(self, scope: &Scope, place: u8) -> Width
        ensures { result ≡ after_word self (syntax.local_of (spelled scope.now) place) }
    {
        self.word(name_at(scope.locals, usize::from(place)))
    }

    /// With the name of this local more, if there is one.
    pub fn local_if(self, scope: &Scope, place: Option<u8>) -> Width
        ensures { result ≡ after_words self (syntax.value_words (spelled scope.now) place) }
    {
        match place {
            Some(place) => self.local(scope, place),
            None => self,
        }
    }

    /// With a variable more.
    pub fn variable(self, scope: &Scope, variable: Var) -> Width
        ensures { result ≡ after_word self (syntax.variable_of (spelled scope.now) variable) }
    {
        match variable {
            Var::Local(place) => self.local(scope, place),
            Var::Shared(name) => self.name(scope, name),
        }
    }

    fn exception(self, scope: &Scope, exception: ExcRef) -> Width
        ensures { result ≡ after_word self (syntax.exception_of (spelled scope.now) exception) }
    {
        match exception {
            ExcRef::Named(name) => self.name(scope, name),
            ExcRef::This => self.word(b"this"),
        }
    }

    /// With the words of an expression more.
    #[tactic(auto, using(crate::proofs::WidthLaws::width_laws))]
    pub fn expression(self, scope: &Scope, e: &Expr) -> Width
        ensures { result ≡ after_words self (syntax.expr_words (spelled scope.now) e.now) }
    {
        match e {
            Expr::Num(n) => self.number(*n),
            Expr::Var(v) => self.variable(scope, *v),
            Expr::Me => self.word(b"self"),
            Expr::Err => self.word(b"err"),
            Expr::Two(op, a, b) => self
                .word(operator_text(*op))
                .expression(scope, a.get())
                .expression(scope, b.get()),
            Expr::Not(a) => self.word(b"not").expression(scope, a.get()),
            Expr::GetStatus(x) => self.word(b"exc_get_status").exception(scope, *x),
            Expr::Matches(x, y) => self
                .word(b"exc_matches")
                .exception(scope, *x)
                .exception(scope, *y),
        }
    }

    /// Whether a line of this width is short enough.
    #[tactic(auto)]
    pub fn is_short(self) -> bool
        ensures { result ≡ (nat_le self.words 24 && nat_le self.bytes 241) }
    {
        self.words <= 24 && self.bytes <= 241
    }
}

/// The width of a line with the word of a call alone.
#[tactic(auto, unfolding(thr_text::specs::Heads::head_word))]
fn call_word(call: CallWord) -> Width
    ensures { result ≡ after_word nothing (fixed.call_word call) }
{
    Width::new().word(Head::Dce(call).text())
}

/// The width of the line of a call.
#[tactic(auto, using(crate::proofs::WidthLaws::after_words_append))]
pub fn call_width(scope: &Scope, call: &DceCall) -> Width
    ensures { result ≡ after_words nothing (syntax.dce_words (spelled scope.now) call.now) }
{
    match call {
        DceCall::AttrCreate(n) => call_word(CallWord::AttrCreate).name(scope, *n),
        DceCall::AttrDelete(n) => call_word(CallWord::AttrDelete).name(scope, *n),
        DceCall::AttrSetsched(n, policy) => call_word(CallWord::AttrSetsched)
            .name(scope, *n)
            .word(policy_text(*policy)),
        DceCall::AttrSetprio(n, e) => call_word(CallWord::AttrSetprio)
            .name(scope, *n)
            .expression(scope, e),
        DceCall::AttrSetinheritsched(n, inherits) => call_word(CallWord::AttrSetinheritsched)
            .name(scope, *n)
            .word(inherit_text(*inherits)),
        DceCall::AttrSetstacksize(n, e) => call_word(CallWord::AttrSetstacksize)
            .name(scope, *n)
            .expression(scope, e),
        DceCall::Create(v, attr, n, e) => call_word(CallWord::Create)
            .variable(scope, *v)
            .name_or(b"default", scope, *attr)
            .name(scope, *n)
            .expression(scope, e),
        DceCall::Join(e, v) => call_word(CallWord::Join)
            .expression(scope, e)
            .variable(scope, *v),
        DceCall::Detach(e) => call_word(CallWord::Detach).expression(scope, e),
        DceCall::Yield => call_word(CallWord::Yield),
        DceCall::Cancel(e) => call_word(CallWord::Cancel).expression(scope, e),
        DceCall::Testcancel => call_word(CallWord::Testcancel),
        DceCall::Setcancel(on, v) => call_word(CallWord::Setcancel)
            .word(cancel_text(*on))
            .variable(scope, *v),
        DceCall::Setasynccancel(on, v) => call_word(CallWord::Setasynccancel)
            .word(cancel_text(*on))
            .variable(scope, *v),
        DceCall::Setprio(e1, e2, v) => call_word(CallWord::Setprio)
            .expression(scope, e1)
            .expression(scope, e2)
            .variable(scope, *v),
        DceCall::Getprio(e, v) => call_word(CallWord::Getprio)
            .expression(scope, e)
            .variable(scope, *v),
        DceCall::Setscheduler(e1, policy, e2, v) => call_word(CallWord::Setscheduler)
            .expression(scope, e1)
            .word(policy_text(*policy))
            .expression(scope, e2)
            .variable(scope, *v),
        DceCall::Getscheduler(e, v) => call_word(CallWord::Getscheduler)
            .expression(scope, e)
            .variable(scope, *v),
        DceCall::DelayNp(e) => call_word(CallWord::DelayNp).expression(scope, e),
        DceCall::GetExpirationNp(e, v) => call_word(CallWord::GetExpirationNp)
            .expression(scope, e)
            .variable(scope, *v),
        DceCall::MutexattrCreate(n) => call_word(CallWord::MutexattrCreate).name(scope, *n),
        DceCall::MutexattrSetkindNp(n, kind) => call_word(CallWord::MutexattrSetkindNp)
            .name(scope, *n)
            .word(kind_text(*kind)),
        DceCall::MutexattrDelete(n) => call_word(CallWord::MutexattrDelete).name(scope, *n),
        DceCall::MutexInit(n, attr) => call_word(CallWord::MutexInit)
            .name(scope, *n)
            .name_or(b"default", scope, *attr),
        DceCall::MutexDestroy(n) => call_word(CallWord::MutexDestroy).name(scope, *n),
        DceCall::MutexLock(n) => call_word(CallWord::MutexLock).name(scope, *n),
        DceCall::MutexTrylock(n, v) => call_word(CallWord::MutexTrylock)
            .name(scope, *n)
            .variable(scope, *v),
        DceCall::MutexUnlock(n) => call_word(CallWord::MutexUnlock).name(scope, *n),
        DceCall::LockGlobalNp => call_word(CallWord::LockGlobalNp),
        DceCall::UnlockGlobalNp => call_word(CallWord::UnlockGlobalNp),
        DceCall::CondInit(n) => call_word(CallWord::CondInit).name(scope, *n),
        DceCall::CondDestroy(n) => call_word(CallWord::CondDestroy).name(scope, *n),
        DceCall::CondWait(n1, n2) => call_word(CallWord::CondWait)
            .name(scope, *n1)
            .name(scope, *n2),
        DceCall::CondTimedwait(n1, n2, e) => call_word(CallWord::CondTimedwait)
            .name(scope, *n1)
            .name(scope, *n2)
            .expression(scope, e),
        DceCall::CondSignal(n) => call_word(CallWord::CondSignal).name(scope, *n),
        DceCall::CondBroadcast(n) => call_word(CallWord::CondBroadcast).name(scope, *n),
        DceCall::Once(n1, n2) => call_word(CallWord::Once).name(scope, *n1).name(scope, *n2),
        DceCall::Keycreate(n, destructor) => call_word(CallWord::Keycreate)
            .name(scope, *n)
            .name_or(b"none", scope, *destructor),
        DceCall::Setspecific(n, e) => call_word(CallWord::Setspecific)
            .name(scope, *n)
            .expression(scope, e),
        DceCall::Getspecific(n, v) => call_word(CallWord::Getspecific)
            .name(scope, *n)
            .variable(scope, *v),
        DceCall::Read(n, v1, v2) => call_word(CallWord::Read)
            .name(scope, *n)
            .variable(scope, *v1)
            .variable(scope, *v2),
        DceCall::Write(n, e) => call_word(CallWord::Write)
            .name(scope, *n)
            .expression(scope, e),
        DceCall::Close(n) => call_word(CallWord::Close).name(scope, *n),
    }
}
