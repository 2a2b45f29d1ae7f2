//! Statements with an expression.

ghost use Rattle.std.specs.Prelude.{◌≡◌, ◌≢◌, ◌≤◌, ◌<◌, [], length, true, Some, IfOk};
ghost use Rattle.thr_remainder.specs.Remainders.{place_in};
ghost use Rattle.thr_remainder.specs.Steps.{write_at};
ghost use Rattle.thr_lines.specs.AtLines.{FormAt};
ghost use Rattle.thr_lines.specs.Layout.{line_at, last_line};
ghost use Rattle.thr_stack.specs.Forms.{expression_of, needs_frame};
ghost use Rattle.thr_stack.specs.Sights.{shared_of};
ghost use Rattle.thr_stack.specs.Standing.{IsGood, Stands, IsReady, Steps, IsRoutine, CanCall, setting_of, remainder_of};
ghost use Rattle.thr_stack.specs.Statements.{outcome, Carries, GoesOn, IsCarried, IsEntered, IsReturned, HasReturned};

use crate::context::Context;
use crate::forms::{needs_frame, tell, write_of};
use crate::frame::Kind;
use crate::notes::Notes;
use crate::raise::{exit, raise};
use crate::sight::value;
use thr_lines::lines::Lines;
use thr_lines::row::Row;
use thr_operators::compute::is_true;
use thr_syntax::expr::{Expr, Var};
use thr_syntax::form::Form;
use thr_values::exception::{Exc, STACKOVF_E};
use thr_values::number::{Line, NameId};

/// The value of a statement's expression, or the exception that is raised in the statement's place. Whether a frame fits is
/// asked first, where the statement needs one.
#[inline(always)]
fn outcome(
    lines: &Lines,
    context: &Context,
    form: &Form,
    e: &Expr,
    shared: &[i64],
) -> Result<i64, Exc>
    requires good { IsGood lines.now context.now }
    requires some { context.now.frames.items ≢ [] }
    ensures value { result ≡ outcome (setting_of lines.now context.now) (shared_of shared.now) (remainder_of lines.now context.now) (needs_frame form.now) e.now }
    ensures room { IfOk result (λ n. needs_frame form.now ≡ true → length context.now.frames.items < context.now.frames.size) }
{
    if needs_frame(form) && context.frames.is_full() {
        return Err(STACKOVF_E);
    }
    value(lines, context, e, shared)
}

/// Calls a routine with this argument. Its value goes to the local at `place`, and its caller goes on at the line `back`.
#[inline(never)]
pub fn enter_routine(
    lines: &Lines,
    context: &mut Context,
    name: NameId,
    place: Option<u8>,
    back: u32,
    n: i64,
)
    requires routine { IsRoutine lines.now name }
    requires room { length context.old.frames.items < context.old.frames.size }
    ensures { IsEntered lines.now name place back n context.old context.new }
{
    match lines.start(name) {
        Some(start) => {
            let count = (start.body.0 - start.line.0) as u8;
            context.frames.call(place, back, count, n);
            context.line = start.body.0;
        }
        None => unreachable!(),
    }
}

/// A call whose frame is off returns this value to the line `back`.
pub fn return_to(context: &mut Context, place: Option<u8>, back: u32, n: i64)
    ensures { IsReturned context.old context.new place back n }
{
    context.line = back;
    if context.frames.is_empty() {
        context.value = n;
    }
    if let Some(p) = place {
        context.frames.set_local(p, n);
    }
}

/// The innermost frame is taken off, and its call returns this value.
#[inline(never)]
fn return_value(context: &mut Context, n: i64)
    requires { context.old.frames.items ≢ [] }
    ensures { HasReturned n context.old context.new }
{
    let Some(frame) = context.frames.pop() else {
        unreachable!()
    };
    match frame.kind {
        Kind::Call { place, .. } => return_to(context, place, frame.back, n),
        _ => return_to(context, None, frame.back, n),
    }
}

/// Goes on after a statement that is no exit, whose expression has this value.
#[inline(always)]
fn go_on(lines: &Lines, context: &mut Context, row: &Row, n: i64)
    requires stands { Stands lines.now context.old }
    requires calls { CanCall lines.now }
    requires row { row.now ≡ (line_at lines.now context.old.line).row }
    requires at { FormAt (line_at lines.now) (last_line lines.now) context.old.line row.now row.now.form }
    requires carried { IsCarried row.now.form }
    requires room { needs_frame row.now.form ≡ true → length context.old.frames.items < context.old.frames.size }
    ensures { GoesOn lines.now n context.old context.new }
{
    let _count = lines.len();
    match &row.form {
        Form::Set(v, _) => {
            context.line += 1;
            match v {
                Var::Local(p) => context.frames.set_local(*p, n),
                Var::Shared(_) => {}
            }
        }
        Form::Say(_) => context.line += 1,
        Form::If(_) => {
            if is_true(n) {
                context.line += 1;
                return;
            }
            match row.next {
                Some(half) => context.line = half.0 + 1,
                None => unreachable!(),
            }
        }
        Form::While(_) => {
            if is_true(n) {
                context.line += 1;
                return;
            }
            match row.after {
                Some(after) => context.line = after.0,
                None => unreachable!(),
            }
        }
        Form::Call(name, _, place) => {
            let back = context.line + 1;
            enter_routine(lines, context, *name, *place, back, n);
        }
        Form::Return(_) => return_value(context, n),
        _ => unreachable!(),
    }
}

/// Carries a statement out, whose expression has this value. A shared one tells of it.
#[inline(always)]
pub fn carry_out(
    lines: &Lines,
    context: &mut Context,
    notes: &mut Notes,
    row: &Row,
    n: i64,
    tells: bool,
)
    requires ready { IsReady lines.now context.old notes.old }
    requires calls { CanCall lines.now }
    requires row { row.now ≡ (line_at lines.now context.old.line).row }
    requires at { FormAt (line_at lines.now) (last_line lines.now) context.old.line row.now row.now.form }
    requires expression { expression_of row.now.form ≢ None }
    requires room { needs_frame row.now.form ≡ true → length context.old.frames.items < context.old.frames.size }
    ensures { Carries lines.now tells n context.old context.new notes.old notes.new }
{
    if let Form::Exit(_) = &row.form {
        exit(context, notes, n);
        return;
    }
    let line = Line(context.line);
    go_on(lines, context, row, n);
    if tells {
        tell(notes, &row.form, line, n);
    }
}

/// The step of a statement with an expression. Answers the shared variable that it writes.
#[inline(always)]
pub fn valued_step(
    lines: &Lines,
    context: &mut Context,
    notes: &mut Notes,
    row: &Row,
    e: &Expr,
    shared: &[i64],
    tells: bool,
) -> Option<(NameId, i64)>
    requires ready { IsReady lines.now context.old notes.old }
    requires calls { CanCall lines.now }
    requires row { row.now ≡ (line_at lines.now context.old.line).row }
    requires at { FormAt (line_at lines.now) (last_line lines.now) context.old.line row.now row.now.form }
    requires expression { expression_of row.now.form ≡ Some e.now }
    ensures steps { Steps lines.now tells (shared_of shared.now) context.old context.new notes.old notes.new }
    ensures written { result ≡ write_at (setting_of lines.now context.old) (shared_of shared.now) (place_in (remainder_of lines.now context.old).items) (remainder_of lines.now context.old) }
{
    match outcome(lines, context, &row.form, e, shared) {
        Err(x) => {
            raise(context, notes, x);
            None
        }
        Ok(n) => {
            carry_out(lines, context, notes, row, n, tells);
            write_of(&row.form, n)
        }
    }
}
