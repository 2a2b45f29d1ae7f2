//! Statements without an expression.

ghost use Rattle.std.specs.Prelude.{◌≡◌, ◌≤◌, false};
ghost use Rattle.thr_remainder.specs.Acts.{Raises, RaisesAgain};
ghost use Rattle.thr_lines.specs.AtLines.{StatementAt, TryAt};
ghost use Rattle.thr_lines.specs.Layout.{line_at, last_line};
ghost use Rattle.thr_stack.specs.Standing.{IsReady, StepsAnyhow};

use crate::context::Context;
use crate::frame::{Frame, Kind};
use crate::notes::Notes;
use crate::raise::{raise, raise_again};
use crate::sight::exception;
use thr_lines::lines::Lines;
use thr_lines::row::Row;
use thr_values::exception::STACKOVF_E;
use thr_values::history::What;
use thr_values::number::{Line, NameId};

/// A try is entered, where a frame more fits.
pub fn enter_try(lines: &Lines, context: &mut Context, notes: &mut Notes, row: &Row)
    requires ready { IsReady lines.now context.old notes.old }
    requires at { TryAt (line_at lines.now) (last_line lines.now) context.old.line row.now }
    ensures { StepsAnyhow lines.now context.old context.new notes.old notes.new }
{
    let _count = lines.len();
    if context.frames.is_full() {
        raise(context, notes, STACKOVF_E);
        return;
    }
    match (row.next, row.after) {
        (Some(first), Some(back)) => {
            context.scopes += 1;
            let scope = context.scopes;
            context.frames.push(Frame {
                kind: Kind::Try {
                    scope,
                    first: first.0,
                },
                back: back.0,
            });
            notes.push(What::Try(scope, Line(context.line)));
            context.line += 1;
        }
        _ => unreachable!(),
    }
}

/// An exception is raised by its name.
pub fn raise_named(lines: &Lines, context: &mut Context, notes: &mut Notes, name: NameId)
    requires ready { IsReady lines.now context.old notes.old }
    requires at { StatementAt (line_at lines.now) (last_line lines.now) context.old.line (Raises name) false }
    ensures { StepsAnyhow lines.now context.old context.new notes.old notes.new }
{
    let x = exception(lines, name);
    raise(context, notes, x);
}

/// What the innermost catch body has caught is raised again.
pub fn reraise(lines: &Lines, context: &mut Context, notes: &mut Notes)
    requires ready { IsReady lines.now context.old notes.old }
    requires at { StatementAt (line_at lines.now) (last_line lines.now) context.old.line RaisesAgain false }
    ensures { StepsAnyhow lines.now context.old context.new notes.old notes.new }
{
    let x = context.frames.caught();
    raise_again(context, notes, x);
}
