//! One step at the innermost place.

ghost use Rattle.std.specs.Prelude.{◌≡◌, None};
ghost use Rattle.thr_remainder.specs.Remainders.{place_in};
ghost use Rattle.thr_remainder.specs.Steps.{write_at};
ghost use Rattle.thr_lines.specs.AtLines.{FormAt};
ghost use Rattle.thr_lines.specs.Layout.{line_at, last_line};
ghost use Rattle.thr_stack.specs.Forms.{expression_of};
ghost use Rattle.thr_stack.specs.Sights.{shared_of};
ghost use Rattle.thr_stack.specs.Standing.{IsReady, Steps, StepsAnyhow, CanCall, IsPlace, setting_of, remainder_of};

use crate::context::Context;
use crate::forms::expression;
use crate::leave::leave;
use crate::notes::Notes;
use crate::statement::{enter_try, raise_named, reraise};
use crate::valued::valued_step;
use thr_lines::lines::Lines;
use thr_lines::row::Row;
use thr_syntax::form::Form;
use thr_values::number::{Line, NameId};

/// The step of a statement without an expression, or the end of a body. At a call of the thread service nothing changes.
#[inline(never)]
fn plain_step(lines: &Lines, context: &mut Context, notes: &mut Notes, row: &Row)
    requires ready { IsReady lines.now context.old notes.old }
    requires at { FormAt (line_at lines.now) (last_line lines.now) context.old.line row.now row.now.form }
    requires place { IsPlace lines.now context.old.line row.now.form }
    requires expression { expression_of row.now.form ≡ None }
    ensures { StepsAnyhow lines.now context.old context.new notes.old notes.new }
{
    match &row.form {
        Form::Try => enter_try(lines, context, notes, row),
        Form::Raise(name) => raise_named(lines, context, notes, *name),
        Form::Reraise => reraise(lines, context, notes),
        Form::Dce(_) => {}
        _ => leave(lines, context, notes),
    }
}

/// The step at the line where a thread stands, with these values of shared variables; a shared one tells of its value. At a
/// call of the thread service nothing changes. Answers the shared variable that the step writes.
#[inline(always)]
pub fn step(
    lines: &Lines,
    context: &mut Context,
    notes: &mut Notes,
    shared: &[i64],
    tells: bool,
) -> Option<(NameId, i64)>
    requires ready { IsReady lines.now context.old notes.old }
    requires calls { CanCall lines.now }
    requires place { IsPlace lines.now context.old.line (line_at lines.now context.old.line).row.form }
    ensures steps { Steps lines.now tells (shared_of shared.now) context.old context.new notes.old notes.new }
    ensures written { result ≡ write_at (setting_of lines.now context.old) (shared_of shared.now) (place_in (remainder_of lines.now context.old).items) (remainder_of lines.now context.old) }
{
    let row = lines.row(Line(context.line));
    if let Some(e) = expression(&row.form) {
        return valued_step(lines, context, notes, row, e, shared, tells);
    }
    plain_step(lines, context, notes, row);
    None
}
