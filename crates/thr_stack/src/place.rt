//! The line of the next step.

ghost use Rattle.std.specs.Prelude.{◌≡◌, ◌≢◌, ◌≤◌, []};
ghost use Rattle.thr_lines.specs.Layout.{line_at};
ghost use Rattle.thr_stack.specs.Standing.{IsGood, IsLine, IsPlace, first_line};
ghost use Rattle.thr_stack.specs.Places.{IsStepLine, IsAtStep};

use crate::context::Context;
use thr_lines::lines::Lines;
use thr_syntax::form::Form;
use thr_values::number::Line;

/// The line of the step that comes next from this line on. Goes past lines that are no steps: a routine's line and those of its
/// locals, `else`, and the ends of an `if` and a `while`.
#[tactic(auto, using(crate::proofs::PlaceLaws::first_here))]
fn place(lines: &Lines, line: u32) -> u32
    requires { IsLine lines.now line }
    ensures inside { IsLine lines.now result }
    ensures same { (line_at lines.now result).left ≡ (line_at lines.now line).left }
    ensures step { IsPlace lines.now result (line_at lines.now result).row.form }
    ensures first { first_line (line_at lines.now result).left.todo (line_at lines.now result).left.close ≡ result }
{
    let _count = lines.len();
    let mut l = line;
    'past: loop {
        let row = lines.row(Line(l));
        match row.form {
            Form::Routine(_, _) | Form::Local(_) => l += 1,
            Form::Else => match row.after {
                Some(after) => l = after.0,
                None => unreachable!(),
            },
            Form::End => match row.partner {
                Some(opener) => match lines.row(opener).form {
                    Form::If(_) => l += 1,
                    Form::While(_) => return opener.0,
                    _ => return l,
                },
                None => return l,
            },
            _ => return l,
        }
    }
}

/// The line of the next step, where a frame is left.
#[inline(always)]
pub fn line_of_step(lines: &Lines, context: &Context) -> u32
    requires good { IsGood lines.now context.now }
    requires some { context.now.frames.items ≢ [] }
    ensures { IsStepLine lines.now context.now result }
{
    place(lines, context.line)
}

/// Goes to the line of the next step.
#[inline(always)]
pub fn go_to_step(lines: &Lines, context: &mut Context)
    requires { IsGood lines.now context.old }
    ensures { IsAtStep lines.now context.old context.new }
{
    if context.frames.is_empty() {
        return;
    }
    context.line = line_of_step(lines, context);
}
