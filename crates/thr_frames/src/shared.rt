//! Shared statements.

ghost use Rattle.std.specs.Prelude.{◌≡◌, ◌≤◌, ◌<◌, ◌+◌, length, IfSome};
ghost use Rattle.thr_remainder.specs.Steps.{shared_step, written};
ghost use Rattle.thr_stack.specs.Sights.{shared_of};
ghost use Rattle.thr_stack.specs.Standing.{IsGood, Makes, remainder_of, setting_of};
ghost use Rattle.thr_frames.specs.Stacks.{CanNumber, CanCall, IsCounted, HasNoOnce, IsSet};

use thr_lines::lines::Lines;
use thr_stack::context::Context;
use thr_stack::notes::Notes;
use thr_stack::place::go_to_step;
use thr_stack::step::step;
use thr_values::number::NameId;

/// The shared statement that is next, with these values of shared variables. Answers the shared variable that it sets, with the
/// value.
pub fn shared_step(
    lines: &Lines,
    context: &mut Context,
    shared: &[i64],
    notes: &mut Notes,
) -> Option<(NameId, i64)>
    requires good { IsGood lines.now context.old }
    requires calls { CanCall lines.now }
    requires numbers { CanNumber (remainder_of lines.now context.old) 1 }
    requires room { length notes.old < 136 }
    ensures steps { Makes lines.now (shared_step (setting_of lines.now context.old) (shared_of shared.now) (remainder_of lines.now context.old)) context.old context.new notes.old notes.new }
    ensures written { result ≡ written (setting_of lines.now context.old) (shared_of shared.now) (remainder_of lines.now context.old) }
    ensures set { IfSome result (λ w. IsSet lines.now w.0) }
    ensures lines { length notes.new ≤ length notes.old + 1 }
    ensures counted { IsCounted (remainder_of lines.now context.old) (remainder_of lines.now context.new) notes.old notes.new }
    ensures once { HasNoOnce (remainder_of lines.now context.old) → HasNoOnce (remainder_of lines.now context.new) }
{
    if context.frames.is_empty() {
        return None;
    }
    go_to_step(lines, context);
    step(lines, context, notes, shared, true)
}
