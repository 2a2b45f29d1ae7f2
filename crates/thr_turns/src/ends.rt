//! What ends the quiet part of a turn.

ghost use Rattle.std.specs.Prelude.{◌≡◌, ◌≤◌, ◌<◌, ◌+◌, ◌^◌, [], length, IfSome, vec_len, vec_capacity};
ghost use Rattle.thr_text.specs.Reading.{Formed};
ghost use Rattle.thr_values.specs.declared.number.NameId.{NameId};
ghost use Rattle.thr_remainder.specs.Declarations.{interface_of};
ghost use Rattle.thr_remainder.specs.Remainders.{Move, Spot, At, place_in, act_at};
ghost use Rattle.thr_remainder.specs.Next.{EndsOnce, UndoesOnce, next};
ghost use Rattle.thr_remainder.specs.Steps.{shared_step, written};
ghost use Rattle.thr_parts.specs.Tables.{names};
ghost use Rattle.thr_parts.specs.Rows.{most};
ghost use Rattle.thr_parts.specs.Keys.{next_destructor};
ghost use Rattle.thr_model.specs.Turns.{shared_made, delivery_made, undoing_made, completion_made, ending_made};
ghost use Rattle.thr_services.specs.Ready.{OwersStand};
ghost use Rattle.thr_services.specs.Sound.{IsSound};
ghost use Rattle.thr_frames.specs.Stacks.{remainder_of, setting_of, IsStack, IsRoutine, CanNumber};
ghost use Rattle.thr_shared.specs.Shared.{values_in, with_written};
ghost use Rattle.thr_turns.specs.declared.workings.Left.TheVariants.{Goes};
ghost use Rattle.thr_turns.specs.Steps.{HasMoved, Steps, Keeps};

use crate::calls::make_call;
use crate::moves::{begin_destructor, close_once, deliver_here, leave_once};
use crate::stores::put;
use crate::workings::{Left, Workings};
use crate::writing::{write, write_all};
use thr_frames::stack::{Env, Stack};
use thr_lines::lines::Lines;
use thr_trees::laws::{
    lines_and_names_are_few, named_routines_are_there, names_are_of_their_kinds,
};
use thr_values::history::What;
use thr_values::number::Tid;

/// A cancel is delivered.
pub fn deliver_cancel(workings: &mut Workings, lines: &Lines, stack: &mut Stack, t: Tid)
    requires stack { IsStack lines.now stack.old }
    requires numbers { CanNumber (remainder_of lines.now stack.old) 1 }
    requires room { vec_len workings.old.entries + 1 ≤ vec_capacity workings.old.entries }
    ensures steps { Steps lines.now t workings.old workings.new stack.old stack.new Goes (λ st. delivery_made st t (remainder_of lines.now stack.old)) }
    ensures keeps { Keeps workings.old workings.new 1 }
{
    workings.services.deliver(t);
    deliver_here(&mut workings.entries, &mut workings.notes, lines, stack, t);
}

/// The once block whose routine has ended is done.
pub fn complete_block(workings: &mut Workings, lines: &Lines, stack: &mut Stack, t: Tid)
    requires stack { IsStack lines.now stack.old }
    requires ends { (block : NameId) × (move : Move) × (next (setting_of lines.now stack.old) (remainder_of lines.now stack.old) ≡ EndsOnce block move) × (block.0 < names) }
    requires arrival { workings.old.services.rows.next_arrival + 1024 < 2 ^ 64 }
    requires owers { OwersStand workings.old.services.debts workings.old.services.rows }
    requires room { vec_len workings.old.entries + 1 ≤ vec_capacity workings.old.entries }
    ensures steps { (block : NameId) (move : Move) → next (setting_of lines.now stack.old) (remainder_of lines.now stack.old) ≡ EndsOnce block move
        → Steps lines.now t workings.old workings.new stack.old stack.new Goes (λ st. completion_made st t block move) }
    ensures keeps { Keeps workings.old workings.new 1 }
{
    let block = close_once(&mut workings.entries, &mut workings.notes, lines, stack, t);
    workings.services.complete(block);
}

/// The once block that the unwinding under way leaves is undone.
pub fn undo_block(workings: &mut Workings, lines: &Lines, stack: &mut Stack, t: Tid)
    requires stack { IsStack lines.now stack.old }
    requires undoes { (block : NameId) × (move : Move) × (next (setting_of lines.now stack.old) (remainder_of lines.now stack.old) ≡ UndoesOnce block move) × (block.0 < names) }
    requires arrival { workings.old.services.rows.next_arrival + 1 < 2 ^ 64 }
    requires owers { OwersStand workings.old.services.debts workings.old.services.rows }
    requires room { vec_len workings.old.entries + 1 ≤ vec_capacity workings.old.entries }
    ensures steps { (block : NameId) (move : Move) → next (setting_of lines.now stack.old) (remainder_of lines.now stack.old) ≡ UndoesOnce block move
        → Steps lines.now t workings.old workings.new stack.old stack.new Goes (λ st. undoing_made st t block move) }
    ensures keeps { Keeps workings.old workings.new 1 }
{
    let block = leave_once(&mut workings.entries, &mut workings.notes, lines, stack, t);
    workings.services.undo(block);
}

/// A thread with nothing left calls its next destructor, or ends with its value.
pub fn end_thread(
    workings: &mut Workings,
    lines: &Lines,
    stack: &mut Stack,
    t: Tid,
    value: i64,
) -> Left
    requires stack { IsStack lines.now stack.old }
    requires empty { (remainder_of lines.now stack.old).items ≡ [] }
    requires value { value ≡ (remainder_of lines.now stack.old).value }
    requires frames { 2 ≤ (setting_of lines.now stack.old).size }
    requires destructors { IfSome (next_destructor workings.old.services.onces.state t).call (λ c. IsRoutine lines.now c.1) }
    requires arrival { workings.old.services.rows.next_arrival + 1024 < 2 ^ 64 }
    requires owers { OwersStand workings.old.services.debts workings.old.services.rows }
    requires numbers { CanNumber (remainder_of lines.now stack.old) 1 }
    requires room { vec_len workings.old.entries + 1 ≤ vec_capacity workings.old.entries }
    ensures steps { Steps lines.now t workings.old workings.new stack.old stack.new result (λ st. ending_made st t (setting_of lines.now stack.old) (remainder_of lines.now stack.old)) }
    ensures keeps { Keeps workings.old workings.new 1 }
{
    match workings.services.next_destructor(t) {
        Some(call) => {
            begin_destructor(
                &mut workings.entries,
                &mut workings.notes,
                lines,
                stack,
                t,
                call,
            );
            Left::Goes
        }
        None => {
            write(&mut workings.entries, t, What::End(value));
            workings.services.end(t, value);
            stack.clear();
            Left::Ended
        }
    }
}

/// The shared statement that is next is made: a call of the thread service, or another one.
pub fn make_shared(workings: &mut Workings, lines: &Lines, stack: &mut Stack, t: Tid) -> Left
    requires formed { Formed lines.now }
    requires interface { workings.old.interface ≡ interface_of lines.now }
    requires stack { IsStack lines.now stack.old }
    requires sound { IsSound workings.old.services t }
    requires seats { length workings.old.services.rows.seats ≤ most }
    requires numbers { CanNumber (remainder_of lines.now stack.old) 2 }
    requires room { vec_len workings.old.entries + 1028 ≤ vec_capacity workings.old.entries }
    ensures steps { (spot : Spot) → place_in (remainder_of lines.now stack.old).items ≡ At spot
        → Steps lines.now t workings.old workings.new stack.old stack.new result (λ st. shared_made lines.now st t (setting_of lines.now stack.old) (remainder_of lines.now stack.old) (act_at spot)) }
    ensures keeps { Keeps workings.old workings.new 1028 }
{
    match stack.next_call(lines) {
        Some(call) => make_call(workings, lines, stack, t, call),
        None => {
            make_step(workings, lines, stack, t);
            Left::Goes
        }
    }
}

/// The shared statement that is next, which is no call, is made.
fn make_step(workings: &mut Workings, lines: &Lines, stack: &mut Stack, t: Tid)
    requires formed { Formed lines.now }
    requires stack { IsStack lines.now stack.old }
    requires numbers { CanNumber (remainder_of lines.now stack.old) 1 }
    requires room { vec_len workings.old.entries + 1 ≤ vec_capacity workings.old.entries }
    ensures moved { HasMoved lines.now t (shared_step (setting_of lines.now stack.old) (values_in workings.old.shared) (remainder_of lines.now stack.old)) stack.old stack.new workings.old.entries.items workings.new.entries.items }
    ensures written { workings.new.shared ≡ with_written workings.old.shared (written (setting_of lines.now stack.old) (values_in workings.old.shared) (remainder_of lines.now stack.old)) }
    ensures services { workings.new.services ≡ workings.old.services }
    ensures keeps { Keeps workings.old workings.new 1 }
{
    named_routines_are_there();
    names_are_of_their_kinds();
    lines_and_names_are_few();
    workings.notes.clear();
    let env = Env {
        shared: workings.shared.values(),
    };
    let written = stack.shared_step(lines, &env, &mut workings.notes);
    put(&mut workings.shared, written);
    write_all(&mut workings.entries, t, workings.notes.lines());
}
