//! What is next where a thread stands.

ghost use Rattle.std.specs.Prelude.{◌≡◌, ◌≢◌, None, []};
ghost use Rattle.thr_lines.specs.Layout.{line_at};
ghost use Rattle.thr_stack.specs.Standing.{IsGood, IsLine, IsPlace};
ghost use Rattle.thr_stack.specs.Nexts.{IsNext};

use crate::context::Context;
use crate::forms::{ends, is_point, shares};
use crate::next::Stood;
use thr_lines::lines::Lines;
use thr_syntax::form::Form;
use thr_values::number::Line;

/// What is next, where no unwinding is under way and a frame is left.
#[inline(always)]
fn next_here(lines: &Lines, context: &Context) -> Stood
    requires good { IsGood lines.now context.now }
    requires free { context.now.under_way ≡ None }
    requires some { context.now.frames.items ≢ [] }
    requires line { IsLine lines.now context.now.line }
    requires place { IsPlace lines.now context.now.line (line_at lines.now context.now.line).row.form }
    ensures { IsNext lines.now context.now result }
{
    let row = lines.row(Line(context.line));
    if let Form::Dce(call) = &row.form {
        return if is_point(call) {
            Stood::Point
        } else {
            Stood::Shared
        };
    }
    if shares(&row.form) {
        return Stood::Shared;
    }
    if !ends(&row.form) {
        return Stood::Quiet;
    }
    if context.frames.at_once() {
        Stood::EndsOnce
    } else {
        Stood::Quiet
    }
}

/// What is next, where the line of a thread that has a frame is that of a step.
#[inline(always)]
pub fn next(lines: &Lines, context: &Context) -> Stood
    requires good { IsGood lines.now context.now }
    requires line { context.now.frames.items ≢ [] → IsLine lines.now context.now.line }
    requires place { context.now.frames.items ≢ [] → IsPlace lines.now context.now.line (line_at lines.now context.now.line).row.form }
    ensures { IsNext lines.now context.now result }
{
    if context.under_way.is_some() {
        return if context.frames.at_once() {
            Stood::Undoes
        } else {
            Stood::Outward
        };
    }
    if context.frames.is_empty() {
        return Stood::Ended;
    }
    next_here(lines, context)
}
