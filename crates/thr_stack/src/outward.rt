//! Unwindings that go outward.

ghost use Rattle.std.specs.Prelude.{◌≡◌, ◌≤◌, ◌<◌, length, MatchOption, Some, true, false};
ghost use Rattle.thr_remainder.specs.Outward.{left_value};
ghost use Rattle.thr_lines.specs.AtLines.{EndsTryBody};
ghost use Rattle.thr_lines.specs.Layout.{line_at, last_line};
ghost use Rattle.thr_stack.specs.declared.frame.Kind.TheVariants as kind;
ghost use Rattle.thr_stack.specs.Standing.{IsGood, IsKind, Ends};
ghost use Rattle.thr_stack.specs.Unwinds.{Catching, NoCatch, GoesOut, Meets};

use crate::context::Context;
use crate::frame::{Frame, Kind, Met};
use crate::leave::is_finally;
use crate::notes::Notes;
use crate::sight::exception;
use thr_lines::lines::Lines;
use thr_operators::compute::same;
use thr_remainder::unwinding::{Cause, Unwinding};
use thr_syntax::form::Form;
use thr_values::exception::{CANCEL_E, Exc};
use thr_values::history::What;
use thr_values::number::Line;

/// The line of the first clause of a try that catches an exception.
fn catching(lines: &Lines, first: u32, x: Exc) -> Option<u32>
    requires from { 1 ≤ first }
    requires to { first ≤ last_line lines.now }
    requires way { EndsTryBody (line_at lines.now first).row.form }
    requires catches { Ends lines.now first false }
    ensures { MatchOption result (NoCatch lines.now x first) (λ line. Catching lines.now x first line) }
{
    let mut l = first;
    'clauses: loop {
        let row = lines.row(Line(l));
        match row.form {
            Form::Catch(name) => {
                if same(x, exception(lines, name)) {
                    return Some(l);
                }
            }
            Form::CatchAll => return Some(l),
            _ => return None,
        }
        match row.next {
            Some(next) => l = next.0,
            None => unreachable!(),
        }
    }
}

/// The value of a thread that an unwinding leaves.
fn left_value(cause: Cause) -> i64
    ensures { result ≡ left_value cause }
{
    match cause {
        Cause::Exit(v) => v,
        Cause::Raised(x) => { if same(x, CANCEL_E) { -1 } else { -2 } }
    }
}

/// What an unwinding does at a try in its body.
fn meet_try(lines: &Lines, scope: u64, first: u32, u: Unwinding) -> Met
    requires from { 1 ≤ first }
    requires to { first ≤ last_line lines.now }
    requires way { EndsTryBody (line_at lines.now first).row.form }
    ensures { Meets lines.now (kind.Try scope first) u result }
{
    let _count = lines.len();
    if is_finally(lines, first) {
        let kind = Kind::Finally {
            scope,
            pending: Some(u),
        };
        return Met::Begins(kind, first + 1, What::Finally(scope, u.number));
    }
    match u.cause {
        Cause::Exit(_) => Met::Drops,
        Cause::Raised(x) => match catching(lines, first, x) {
            None => Met::Drops,
            Some(line) => {
                let kind = Kind::Catch { scope, caught: x };
                Met::Begins(kind, line + 1, What::Catch(scope, u.number, Line(line)))
            }
        },
    }
}

/// What an unwinding does at a frame.
fn meet(lines: &Lines, kind: Kind, u: Unwinding) -> Met
    requires { IsKind lines.now kind }
    ensures { Meets lines.now kind u result }
{
    match kind {
        Kind::Call { .. } | Kind::Catch { .. } | Kind::Finally { .. } => Met::Drops,
        Kind::Try { scope, first } => meet_try(lines, scope, first, u),
        Kind::Once { .. } => Met::Undoes,
        Kind::Barrier { scope, .. } => Met::Loses(What::Lost(scope, u.number)),
    }
}

/// An unwinding that is under way goes outward until a body begins, it is lost, it comes to a once block, or no frame is
/// left.
#[inline(never)]
pub fn settle(lines: &Lines, context: &mut Context, notes: &mut Notes, u: Unwinding)
    requires good { IsGood lines.now context.old }
    requires under_way { context.old.under_way ≡ Some u }
    requires room { length notes.old < 136 }
    ensures { GoesOut lines.now u context.old context.new notes.old notes.new }
{
    'out: while let Some(frame) = context.frames.pop() {
        match meet(lines, frame.kind, u) {
            Met::Drops => context.line = frame.back,
            Met::Begins(kind, line, what) => {
                context.frames.push(Frame {
                    kind,
                    back: frame.back,
                });
                context.line = line;
                context.under_way = None;
                notes.push(what);
                return;
            }
            Met::Undoes => {
                context.frames.push(frame);
                return;
            }
            Met::Loses(what) => {
                context.line = frame.back;
                context.under_way = None;
                notes.push(what);
                return;
            }
        }
    }
    context.under_way = None;
    context.value = left_value(u.cause);
    notes.push(What::Bottom(u.number, context.value));
}
