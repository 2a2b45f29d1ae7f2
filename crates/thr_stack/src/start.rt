//! Threads that start.

ghost use Rattle.std.specs.Prelude.{◌≡◌, ◌<◌, [], length};
ghost use Rattle.thr_remainder.specs.Starts.{fresh};
ghost use Rattle.thr_stack.specs.Standing.{IsGood, IsRoutine, remainder_of, setting_of};

use crate::context::Context;
use crate::valued::enter_routine;
use thr_lines::lines::Lines;
use thr_values::number::NameId;

/// A thread begins at this routine with this argument.
pub fn start(lines: &Lines, context: &mut Context, routine: NameId, arg: i64)
    requires routine { IsRoutine lines.now routine }
    requires empty { context.old.frames.items ≡ [] }
    requires room { 0 < context.old.frames.size }
    ensures fresh { remainder_of lines.now context.new ≡ fresh lines.now routine arg }
    ensures setting { setting_of lines.now context.new ≡ setting_of lines.now context.old }
    ensures good { IsGood lines.now context.new }
{
    context.under_way = None;
    context.value = 0;
    context.err = 0;
    context.scopes = 0;
    context.unwindings = 0;
    enter_routine(lines, context, routine, None, 0, arg);
}
