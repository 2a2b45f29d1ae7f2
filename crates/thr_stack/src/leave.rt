//! Ends of bodies.

ghost use Rattle.std.specs.Prelude.{◌≡◌, ◌≤◌};
ghost use Rattle.thr_remainder.specs.Places.{nothing};
ghost use Rattle.thr_lines.specs.AtLines.{EndsTryBody};
ghost use Rattle.thr_lines.specs.Layout.{line_at, last_line};
ghost use Rattle.thr_stack.specs.Standing.{IsReady, StepsAnyhow, Ends};

use crate::context::Context;
use crate::frame::{Frame, Kind};
use crate::notes::Notes;
use crate::valued::return_to;
use thr_lines::lines::Lines;
use thr_syntax::form::Form;
use thr_values::history::What;
use thr_values::number::Line;

/// Whether a try has a `finally` at its next line.
pub fn is_finally(lines: &Lines, first: u32) -> bool
    requires from { 1 ≤ first }
    requires to { first ≤ last_line lines.now }
    requires way { EndsTryBody (line_at lines.now first).row.form }
    ensures { Ends lines.now first result }
{
    match lines.row(Line(first)).form {
        Form::Finally => true,
        _ => false,
    }
}

/// The end of a body that has nothing left.
pub fn leave(lines: &Lines, context: &mut Context, notes: &mut Notes)
    requires ready { IsReady lines.now context.old notes.old }
    requires at { (line_at lines.now context.old.line).left ≡ nothing context.old.line }
    ensures { StepsAnyhow lines.now context.old context.new notes.old notes.new }
{
    let _count = lines.len();
    let Some(frame) = context.frames.pop() else {
        unreachable!()
    };
    match frame.kind {
        Kind::Call { place, .. } => return_to(context, place, frame.back, 0),
        Kind::Try { scope, first } => {
            if is_finally(lines, first) {
                context.frames.push(Frame {
                    kind: Kind::Finally {
                        scope,
                        pending: None,
                    },
                    back: frame.back,
                });
                context.line = first + 1;
                notes.push(What::Finally(scope, 0));
                return;
            }
            context.line = frame.back;
            notes.push(What::Endtry(scope));
        }
        Kind::Catch { scope, .. } => {
            context.line = frame.back;
            notes.push(What::Endcatch(scope));
        }
        Kind::Finally { scope, pending } => {
            context.line = frame.back;
            context.under_way = pending;
            notes.push(What::Endfin(scope));
        }
        Kind::Once { scope, .. } => {
            context.line = frame.back;
            notes.push(What::Done(scope));
        }
        Kind::Barrier { scope, .. } => {
            context.line = frame.back;
            notes.push(What::Enddes(scope));
        }
    }
}
