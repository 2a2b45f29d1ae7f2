//! What the forms of lines say of the statements on them.

ghost use Rattle.std.specs.Prelude.{◌≡◌, ◌++◌, ◌+◌, ◌<◌, length, None, Some, Ok, MatchOption};
ghost use Rattle.std.specs.List.{list_any};
ghost use Rattle.thr_syntax.specs.Shared.{is_shared_variable, variables_of};
ghost use Rattle.thr_remainder.specs.Calls.{is_point, shape_of};
ghost use Rattle.thr_stack.specs.Forms.{expression_of, needs_frame, shares, ends, told_by, write_from};

use crate::notes::Notes;
use thr_syntax::dce::DceCall;
use thr_syntax::expr::{Expr, Var};
use thr_syntax::form::Form;
use thr_values::history::What;
use thr_values::number::{Line, NameId};

/// The expression of a statement that isn't a call of the thread service.
#[inline(always)]
pub fn expression(form: &Form) -> Option<&Expr>
    ensures { MatchOption result (expression_of form.now ≡ None) (λ e. expression_of form.now ≡ Some e.now) }
{
    match form {
        Form::Set(_, e)
        | Form::Say(e)
        | Form::If(e)
        | Form::While(e)
        | Form::Call(_, e, _)
        | Form::Return(e)
        | Form::Exit(e) => Some(e),
        _ => None,
    }
}

/// Whether the step of a statement with an expression needs a frame.
#[inline(always)]
pub fn needs_frame(form: &Form) -> bool
    ensures { result ≡ needs_frame form.now }
{
    matches!(form, Form::Call(_, _, _))
}

/// Whether a shared variable stands in an operand. A leaf takes no call.
#[inline(always)]
#[tactic(auto, using(thr_syntax::proofs::SharedLaws::reads_shared_laws))]
fn operand_reads(e: &Expr) -> bool
    ensures { result ≡ list_any is_shared_variable (variables_of e.now) }
{
    match e {
        Expr::Num(_) | Expr::Var(Var::Local(_)) => false,
        Expr::Var(Var::Shared(_)) => true,
        _ => e.reads_shared(),
    }
}

/// Whether a shared variable stands in an expression. Where the operands are leaves, it takes no call.
#[inline(always)]
#[tactic(auto, using(thr_syntax::proofs::SharedLaws::reads_shared_laws))]
fn reads(e: &Expr) -> bool
    ensures { result ≡ list_any is_shared_variable (variables_of e.now) }
{
    match e {
        Expr::Two(_, a, b) => operand_reads(a.get()) || operand_reads(b.get()),
        _ => e.reads_shared(),
    }
}

/// Whether the statement of a line is shared.
#[inline(always)]
pub fn shares(form: &Form) -> bool
    ensures { result ≡ shares form.now }
{
    match form {
        Form::Say(_) | Form::Dce(_) | Form::Set(Var::Shared(_), _) => true,
        Form::Set(Var::Local(_), e)
        | Form::If(e)
        | Form::While(e)
        | Form::Call(_, e, _)
        | Form::Return(e)
        | Form::Exit(e) => reads(e),
        _ => false,
    }
}

/// Whether no statement stands at a line.
#[inline(always)]
pub fn ends(form: &Form) -> bool
    ensures { result ≡ ends form.now }
{
    !matches!(
        form,
        Form::Set(_, _)
            | Form::Say(_)
            | Form::If(_)
            | Form::While(_)
            | Form::Try
            | Form::Raise(_)
            | Form::Reraise
            | Form::Call(_, _, _)
            | Form::Return(_)
            | Form::Exit(_)
            | Form::Dce(_)
    )
}

/// Whether a call is a point.
#[tactic(auto, unfolding(thr_remainder::specs::Calls::shape_of))]
pub fn is_point(call: &DceCall) -> bool
    ensures { result ≡ is_point (shape_of call.now).word }
{
    match call {
        DceCall::Testcancel
        | DceCall::CondWait(_, _)
        | DceCall::CondTimedwait(_, _, _)
        | DceCall::Join(_, _)
        | DceCall::DelayNp(_)
        | DceCall::Read(_, _, _)
        | DceCall::Write(_, _) => true,
        _ => false,
    }
}

/// Writes what a shared statement tells of the value of its expression.
pub fn tell(notes: &mut Notes, form: &Form, line: Line, n: i64)
    requires { length notes.old < 136 }
    ensures { notes.new ≡ notes.old ++ told_by form.now line.0 n }
{
    match form {
        Form::Set(_, _) => notes.push(What::Set(line, n)),
        Form::Say(_) => notes.push(What::Say(n)),
        Form::If(_) => notes.push(What::If(line, n)),
        Form::While(_) => notes.push(What::While(line, n)),
        Form::Call(_, _, _) => notes.push(What::CallAt(line, n)),
        Form::Return(_) => notes.push(What::Return(line, n)),
        _ => {}
    }
}

/// The shared variable that a statement sets, with the value of its expression.
#[inline(always)]
pub fn write_of(form: &Form, n: i64) -> Option<(NameId, i64)>
    ensures { result ≡ write_from form.now (Ok n) }
{
    match form {
        Form::Set(Var::Shared(name), _) => Some((*name, n)),
        _ => None,
    }
}
