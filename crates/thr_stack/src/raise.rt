//! Unwindings that set out.

ghost use Rattle.std.specs.Prelude.{◌≡◌, ◌+◌, ◌<◌, ◌^◌, length, unwrap_or};
ghost use Rattle.thr_syntax.specs.declared.tree.Script.{Script};
ghost use Rattle.thr_remainder.specs.Starts.{raised, raised_again, exited, delivered, line_of_next};
ghost use Rattle.thr_stack.specs.Standing.{IsGood, Makes, remainder_of, set_out};

use crate::context::Context;
use crate::notes::Notes;
use crate::place::line_of_step;
use thr_lines::lines::Lines;
use thr_remainder::unwinding::{Cause, Unwinding};
use thr_values::exception::{CANCEL_E, Exc};
use thr_values::history::What;
use thr_values::number::Line;

/// The next unwinding is under way; answers its number.
pub fn set_out(context: &mut Context, cause: Cause) -> u64
    requires { context.old.unwindings + 1 < 2 ^ 64 }
    ensures context { context.new ≡ set_out cause context.old }
    ensures number { result ≡ context.old.unwindings + 1 }
{
    let number = context.unwindings + 1;
    context.unwindings = number;
    context.under_way = Some(Unwinding { number, cause });
    number
}

/// An exception is raised.
#[inline(never)]
pub fn raise(context: &mut Context, notes: &mut Notes, x: Exc)
    requires unwindings { context.old.unwindings + 1 < 2 ^ 64 }
    requires room { length notes.old < 136 }
    ensures { (s : Script) → IsGood s context.old → Makes s (raised x (remainder_of s context.old)) context.old context.new notes.old notes.new }
{
    let number = set_out(context, Cause::Raised(x));
    notes.push(What::Raise(number, x));
}

/// What was caught is raised again.
pub fn raise_again(context: &mut Context, notes: &mut Notes, x: Exc)
    requires unwindings { context.old.unwindings + 1 < 2 ^ 64 }
    requires room { length notes.old < 136 }
    ensures { (s : Script) → IsGood s context.old → Makes s (raised_again x (remainder_of s context.old)) context.old context.new notes.old notes.new }
{
    let number = set_out(context, Cause::Raised(x));
    notes.push(What::Reraise(number, x));
}

/// The thread exits with this value.
#[inline(never)]
pub fn exit(context: &mut Context, notes: &mut Notes, n: i64)
    requires unwindings { context.old.unwindings + 1 < 2 ^ 64 }
    requires room { length notes.old < 136 }
    ensures { (s : Script) → IsGood s context.old → Makes s (exited n (remainder_of s context.old)) context.old context.new notes.old notes.new }
{
    let number = set_out(context, Cause::Exit(n));
    notes.push(What::Exit(number, n));
}

/// The line of the next step, and 0 where no frame is left.
fn next_line(lines: &Lines, context: &Context) -> u32
    requires { IsGood lines.now context.now }
    ensures { result ≡ unwrap_or (line_of_next (remainder_of lines.now context.now)) 0 }
{
    if context.frames.is_empty() {
        return 0;
    }
    line_of_step(lines, context)
}

/// A cancel is delivered in place of the next step.
pub fn deliver(lines: &Lines, context: &mut Context, notes: &mut Notes)
    requires good { IsGood lines.now context.old }
    requires unwindings { context.old.unwindings + 1 < 2 ^ 64 }
    requires room { length notes.old < 136 }
    ensures { Makes lines.now (delivered (remainder_of lines.now context.old)) context.old context.new notes.old notes.new }
{
    let line = next_line(lines, context);
    let number = set_out(context, Cause::Raised(CANCEL_E));
    notes.push(What::Deliver(number, Line(line)));
}
