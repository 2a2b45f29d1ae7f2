//! Ends of once blocks.

ghost use Rattle.std.specs.Prelude.{◌≡◌, ◌+◌, ◌<◌, ◌≤◌, length, true};
ghost use Rattle.thr_values.specs.declared.number.NameId.{NameId};
ghost use Rattle.thr_remainder.specs.Next.{EndsOnce, UndoesOnce, next};
ghost use Rattle.thr_remainder.specs.Remainders.{Move};
ghost use Rattle.thr_stack.specs.FrameLists.{AtOnce};
ghost use Rattle.thr_stack.specs.Onces.{HasLeft};
ghost use Rattle.thr_stack.specs.Standing.{IsGood, Makes, remainder_of, setting_of};

use crate::context::Context;
use crate::frame::Kind;
use crate::notes::Notes;
use thr_lines::lines::Lines;
use thr_values::history::What;
use thr_values::number::NameId;

/// Takes the innermost frame off, which is a once block's. Answers its scope and its block.
fn leave_once(context: &mut Context) -> (u64, NameId)
    requires { AtOnce context.old.frames.items true }
    ensures { HasLeft context.old context.new result.0 result.1 }
{
    let Some(frame) = context.frames.pop() else {
        unreachable!()
    };
    match frame.kind {
        Kind::Once { scope, block, .. } => {
            context.line = frame.back;
            (scope, block)
        }
        _ => unreachable!(),
    }
}

/// The routine of a once block has ended, and the block is done. Answers the block.
pub fn end_once(lines: &Lines, context: &mut Context, notes: &mut Notes) -> NameId
    requires good { IsGood lines.now context.old }
    requires ends { (block : NameId) × (move : Move) × (next (setting_of lines.now context.old) (remainder_of lines.now context.old) ≡ EndsOnce block move) }
    requires room { length notes.old < 136 }
    ensures makes { (move : Move) × (next (setting_of lines.now context.old) (remainder_of lines.now context.old) ≡ EndsOnce result move) × Makes lines.now move context.old context.new notes.old notes.new }
    ensures lines { length notes.new ≤ length notes.old + 1 }
{
    let _ = lines;
    let (scope, block) = leave_once(context);
    notes.push(What::Done(scope));
    block
}

/// The unwinding under way undoes a once block. Answers the block.
pub fn undo_once(lines: &Lines, context: &mut Context, notes: &mut Notes) -> NameId
    requires good { IsGood lines.now context.old }
    requires undoes { (block : NameId) × (move : Move) × (next (setting_of lines.now context.old) (remainder_of lines.now context.old) ≡ UndoesOnce block move) }
    requires room { length notes.old < 136 }
    ensures makes { (move : Move) × (next (setting_of lines.now context.old) (remainder_of lines.now context.old) ≡ UndoesOnce result move) × Makes lines.now move context.old context.new notes.old notes.new }
    ensures lines { length notes.new ≤ length notes.old + 1 }
{
    let _ = lines;
    let Some(u) = context.under_way else {
        unreachable!()
    };
    let (scope, block) = leave_once(context);
    notes.push(What::Undone(scope, u.number));
    block
}
