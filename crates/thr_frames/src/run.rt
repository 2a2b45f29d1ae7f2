//! Quiet parts of turns.

ghost use Rattle.std.specs.Prelude.{◌≡◌, ◌≢◌, ◌+◌, ◌<◌, ◌≤◌, [], length, false, IfNone, IfSome};
ghost use Rattle.thr_remainder.specs.Next.{next};
ghost use Rattle.thr_remainder.specs.Runs.{is_deliverable, is_asynchronous, outward_move};
ghost use Rattle.thr_lines.specs.Layout.{line_at};
ghost use Rattle.thr_stack.specs.Standing.{IsGood, IsLine, IsPlace, Makes, remainder_of, setting_of};
ghost use Rattle.thr_frames.specs.Passes.{Passed};
ghost use Rattle.thr_frames.specs.Runs.{RanTo, IsUndelivered, IsOutsideOnce};
ghost use Rattle.thr_frames.specs.Stacks.{CanNumber, CanCall, IsCounted, HasNoOnce};

use crate::stopped::Stopped;
use thr_lines::lines::Lines;
use thr_stack::context::Context;
use thr_stack::next::Stood;
use thr_stack::notes::Notes;
use thr_stack::outward::settle;
use thr_stack::place::go_to_step;
use thr_stack::standing::next;
use thr_stack::step::step;
use thr_values::history::What;
use thr_values::number::Line;
use thr_values::scheduling::Mode;

/// Whether a cancel can be delivered where the next step is a point or isn't.
fn deliverable(mode: Mode, point: bool) -> bool
    ensures { result ≡ is_deliverable mode point }
{
    mode.pending && mode.general && (point || mode.asynchronous)
}

/// Whether both cancelabilities are on.
fn asynchronous(mode: Mode) -> bool
    ensures { result ≡ is_asynchronous mode }
{
    mode.general && mode.asynchronous
}

/// An unwinding under way goes outward, unless it is at a once block.
#[inline(always)]
fn go_outward(lines: &Lines, context: &mut Context, notes: &mut Notes)
    requires good { IsGood lines.now context.old }
    requires room { length notes.old < 136 }
    ensures makes { Makes lines.now (outward_move (next (setting_of lines.now context.old) (remainder_of lines.now context.old)) (remainder_of lines.now context.old)) context.old context.new notes.old notes.new }
    ensures lines { length notes.new ≤ length notes.old + 1 }
    ensures counted { IsCounted (remainder_of lines.now context.old) (remainder_of lines.now context.new) notes.old notes.new }
    ensures once { HasNoOnce (remainder_of lines.now context.old) → HasNoOnce (remainder_of lines.now context.new) }
{
    let Some(u) = context.under_way else {
        return;
    };
    if context.frames.at_once() {
        return;
    }
    settle(lines, context, notes, u);
}

/// The same, and then goes to the line of the next step.
#[inline(always)]
fn advance(lines: &Lines, context: &mut Context, notes: &mut Notes)
    requires good { IsGood lines.now context.old }
    requires room { length notes.old < 136 }
    ensures makes { Makes lines.now (outward_move (next (setting_of lines.now context.old) (remainder_of lines.now context.old)) (remainder_of lines.now context.old)) context.old context.new notes.old notes.new }
    ensures lines { length notes.new ≤ length notes.old + 1 }
    ensures counted { IsCounted (remainder_of lines.now context.old) (remainder_of lines.now context.new) notes.old notes.new }
    ensures once { HasNoOnce (remainder_of lines.now context.old) → HasNoOnce (remainder_of lines.now context.new) }
    ensures line { context.new.frames.items ≢ [] → IsLine lines.now context.new.line }
    ensures place { context.new.frames.items ≢ [] → IsPlace lines.now context.new.line (line_at lines.now context.new.line).row.form }
{
    go_outward(lines, context, notes);
    go_to_step(lines, context);
}

/// One step of a run, or what ends it.
#[inline(always)]
fn pass(lines: &Lines, context: &mut Context, mode: Mode, notes: &mut Notes) -> Option<Stopped>
    requires good { IsGood lines.now context.old }
    requires calls { CanCall lines.now }
    requires numbers { CanNumber (remainder_of lines.now context.old) 1 }
    requires room { length notes.old + 3 < 136 }
    ensures passed { Passed lines.now mode context.old context.new notes.old notes.new result }
    ensures lines { length notes.new ≤ length notes.old + 3 }
    ensures goes { IfNone result (length notes.new ≤ length notes.old + 2) }
    ensures counted { IsCounted (remainder_of lines.now context.old) (remainder_of lines.now context.new) notes.old notes.new }
    ensures pending { mode.pending ≡ false → IfSome result IsUndelivered }
    ensures once { HasNoOnce (remainder_of lines.now context.old) → HasNoOnce (remainder_of lines.now context.new) × IfSome result IsOutsideOnce }
{
    advance(lines, context, notes);
    match next(lines, context) {
        Stood::Outward => {
            notes.push(What::Pause);
            Some(Stopped::Paused)
        }
        Stood::Undoes => Some(Stopped::OnceUndone),
        Stood::Ended => Some(Stopped::Ended(context.value)),
        Stood::EndsOnce => {
            if deliverable(mode, false) {
                return Some(Stopped::Async(Line(context.line)));
            }
            Some(Stopped::OnceDone)
        }
        Stood::Shared => {
            if deliverable(mode, false) {
                return Some(Stopped::Async(Line(context.line)));
            }
            Some(Stopped::Shared(Line(context.line)))
        }
        Stood::Point => {
            if deliverable(mode, true) {
                return Some(Stopped::Point(Line(context.line)));
            }
            Some(Stopped::Shared(Line(context.line)))
        }
        Stood::Quiet => {
            if deliverable(mode, false) {
                return Some(Stopped::Async(Line(context.line)));
            }
            let _ = step(lines, context, notes, &[], false);
            if asynchronous(mode) {
                notes.push(What::Pause);
                return Some(Stopped::Paused);
            }
            None
        }
    }
}

/// The quiet part of a turn: at most 64 quiet steps, and the unwindings between them. A quiet step is inlined whole into this
/// loop and takes no call; what is rare, as an unwinding, stays one.
#[inline(never)]
pub fn run(lines: &Lines, context: &mut Context, mode: Mode, notes: &mut Notes) -> Stopped
    requires good { IsGood lines.now context.old }
    requires calls { CanCall lines.now }
    requires empty { notes.old ≡ [] }
    requires numbers { CanNumber (remainder_of lines.now context.old) 136 }
    ensures ran { RanTo lines.now mode context.old context.new notes.new result }
    ensures lines { length notes.new ≤ 130 }
    ensures counted { IsCounted (remainder_of lines.now context.old) (remainder_of lines.now context.new) notes.old notes.new }
    ensures pending { mode.pending ≡ false → IsUndelivered result }
    ensures once { HasNoOnce (remainder_of lines.now context.old) → HasNoOnce (remainder_of lines.now context.new) × IsOutsideOnce result }
{
    for i in 0..64u32 {
        if let Some(stopped) = pass(lines, context, mode, notes) {
            return stopped;
        }
    }
    notes.push(What::Pause);
    Stopped::Paused
}
