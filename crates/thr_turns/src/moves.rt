//! Moves of a thread, each with its line.

ghost use Rattle.std.specs.Prelude.{◌≡◌, ◌≢◌, ◌<◌, ◌≤◌, ◌+◌, [], length, true, vec_len, vec_capacity};
ghost use Rattle.thr_remainder.specs.Remainders.{Move, has_room};
ghost use Rattle.thr_remainder.specs.Starts.{raised, delivered, begins_once, begins_destructor};
ghost use Rattle.thr_remainder.specs.Next.{EndsOnce, UndoesOnce, next};
ghost use Rattle.thr_frames.specs.Stacks.{remainder_of, setting_of, IsStack, IsRoutine, CanNumber};
ghost use Rattle.thr_values.specs.declared.number.NameId.{NameId};
ghost use Rattle.thr_turns.specs.Steps.{HasMoved};

use crate::writing::write_all;
use thr_frames::stack::{Stack, deliver_at, raise_at};
use thr_lines::lines::Lines;
use thr_stack::notes::Notes;
use thr_values::exception::Exc;
use thr_values::history::Entry;
use thr_values::number::{NameId, Tid};

/// An exception is raised where the thread stands.
pub fn raise(
    entries: &mut Vec<Entry>,
    notes: &mut Notes,
    lines: &Lines,
    stack: &mut Stack,
    t: Tid,
    x: Exc,
)
    requires stack { IsStack lines.now stack.old }
    requires numbers { CanNumber (remainder_of lines.now stack.old) 1 }
    requires room { vec_len entries.old + 1 ≤ vec_capacity entries.old }
    ensures moved { HasMoved lines.now t (raised x (remainder_of lines.now stack.old)) stack.old stack.new entries.old.items entries.new.items }
    ensures few { vec_len entries.new ≤ vec_len entries.old + 1 }
    ensures capacity { vec_capacity entries.new ≡ vec_capacity entries.old }
{
    notes.clear();
    raise_at(lines, stack, x, notes);
    write_all(entries, t, notes.lines());
}

/// A cancel is delivered where the thread stands.
pub fn deliver_here(
    entries: &mut Vec<Entry>,
    notes: &mut Notes,
    lines: &Lines,
    stack: &mut Stack,
    t: Tid,
)
    requires stack { IsStack lines.now stack.old }
    requires numbers { CanNumber (remainder_of lines.now stack.old) 1 }
    requires room { vec_len entries.old + 1 ≤ vec_capacity entries.old }
    ensures moved { HasMoved lines.now t (delivered (remainder_of lines.now stack.old)) stack.old stack.new entries.old.items entries.new.items }
    ensures few { vec_len entries.new ≤ vec_len entries.old + 1 }
    ensures capacity { vec_capacity entries.new ≡ vec_capacity entries.old }
{
    notes.clear();
    deliver_at(lines, stack, notes);
    write_all(entries, t, notes.lines());
}

/// The routine of a once block begins.
pub fn begin_once(
    entries: &mut Vec<Entry>,
    notes: &mut Notes,
    lines: &Lines,
    stack: &mut Stack,
    t: Tid,
    block: NameId,
    routine: NameId,
)
    requires stack { IsStack lines.now stack.old }
    requires routine { IsRoutine lines.now routine }
    requires frames { has_room (setting_of lines.now stack.old) (remainder_of lines.now stack.old) 2 ≡ true }
    requires numbers { CanNumber (remainder_of lines.now stack.old) 1 }
    requires room { vec_len entries.old + 1 ≤ vec_capacity entries.old }
    ensures moved { HasMoved lines.now t (begins_once (setting_of lines.now stack.old) block routine (remainder_of lines.now stack.old)) stack.old stack.new entries.old.items entries.new.items }
    ensures few { vec_len entries.new ≤ vec_len entries.old + 1 }
    ensures capacity { vec_capacity entries.new ≡ vec_capacity entries.old }
{
    notes.clear();
    stack.push_once(lines, block, routine, notes);
    write_all(entries, t, notes.lines());
}

/// The destructor of a key begins with the thread's value, as key, routine and value.
pub fn begin_destructor(
    entries: &mut Vec<Entry>,
    notes: &mut Notes,
    lines: &Lines,
    stack: &mut Stack,
    t: Tid,
    call: (NameId, NameId, i64),
)
    requires stack { IsStack lines.now stack.old }
    requires routine { IsRoutine lines.now call.1 }
    requires frames { has_room (setting_of lines.now stack.old) (remainder_of lines.now stack.old) 2 ≡ true }
    requires numbers { CanNumber (remainder_of lines.now stack.old) 1 }
    requires room { vec_len entries.old + 1 ≤ vec_capacity entries.old }
    ensures moved { HasMoved lines.now t (begins_destructor (setting_of lines.now stack.old) call.0 call.1 call.2 (remainder_of lines.now stack.old)) stack.old stack.new entries.old.items entries.new.items }
    ensures few { vec_len entries.new ≤ vec_len entries.old + 1 }
    ensures capacity { vec_capacity entries.new ≡ vec_capacity entries.old }
{
    notes.clear();
    stack.push_barrier(lines, call.0, call.1, call.2, notes);
    write_all(entries, t, notes.lines());
}

/// The routine of a once block has ended. Answers the block.
pub fn close_once(
    entries: &mut Vec<Entry>,
    notes: &mut Notes,
    lines: &Lines,
    stack: &mut Stack,
    t: Tid,
) -> NameId
    requires stack { IsStack lines.now stack.old }
    requires ends { (block : NameId) × (move : Move) × (next (setting_of lines.now stack.old) (remainder_of lines.now stack.old) ≡ EndsOnce block move) }
    requires room { vec_len entries.old + 1 ≤ vec_capacity entries.old }
    ensures moved { (move : Move) × (next (setting_of lines.now stack.old) (remainder_of lines.now stack.old) ≡ EndsOnce result move) × HasMoved lines.now t move stack.old stack.new entries.old.items entries.new.items }
    ensures few { vec_len entries.new ≤ vec_len entries.old + 1 }
    ensures capacity { vec_capacity entries.new ≡ vec_capacity entries.old }
{
    notes.clear();
    let block = stack.once_done(lines, notes);
    write_all(entries, t, notes.lines());
    block
}

/// The unwinding under way undoes a once block. Answers the block.
pub fn leave_once(
    entries: &mut Vec<Entry>,
    notes: &mut Notes,
    lines: &Lines,
    stack: &mut Stack,
    t: Tid,
) -> NameId
    requires stack { IsStack lines.now stack.old }
    requires undoes { (block : NameId) × (move : Move) × (next (setting_of lines.now stack.old) (remainder_of lines.now stack.old) ≡ UndoesOnce block move) }
    requires room { vec_len entries.old + 1 ≤ vec_capacity entries.old }
    ensures moved { (move : Move) × (next (setting_of lines.now stack.old) (remainder_of lines.now stack.old) ≡ UndoesOnce result move) × HasMoved lines.now t move stack.old stack.new entries.old.items entries.new.items }
    ensures few { vec_len entries.new ≤ vec_len entries.old + 1 }
    ensures capacity { vec_capacity entries.new ≡ vec_capacity entries.old }
{
    notes.clear();
    let block = stack.once_undone(lines, notes);
    write_all(entries, t, notes.lines());
    block
}
