//! Parts of a turn.

ghost use Rattle.std.specs.Prelude.{◌≡◌, ◌≤◌, ◌<◌, ◌+◌, IfSome, true, vec_len, vec_capacity};
ghost use Rattle.thr_text.specs.Reading.{Formed};
ghost use Rattle.thr_parts.specs.Rows.{most};
ghost use Rattle.thr_parts.specs.Threads.{record_at};
ghost use Rattle.thr_model.specs.States.{frames_in};
ghost use Rattle.thr_tables.specs.Places.{has_place};
ghost use Rattle.thr_remainder.specs.Declarations.{interface_of};
ghost use Rattle.thr_frames.specs.Stacks.{IsRoutine};
ghost use Rattle.thr_machine.specs.Books.{most_lines, most_size, IsSpare};
ghost use Rattle.thr_machine.specs.Stepping.{CanTurn, TurnsInPlace, StacksAfter, CanSettle, Begins, CanMove, MovesTo};

use crate::opening::begin_on;
use crate::writing::{write, write_gifts};
use thr_frames::stack::Stack;
use thr_lines::lines::Lines;
use thr_services::Services;
use thr_stacks::Stacks;
use thr_turns::turn;
use thr_turns::workings::{Left, Workings};
use thr_values::history::{What, Who};
use thr_values::number::{NameId, Tid};

/// The thread makes its turn on its stack.
pub fn turn_in_place(workings: &mut Workings, lines: &Lines, stacks: &mut Stacks, t: Tid) -> Left
    requires formed { Formed lines.now }
    requires interface { workings.old.interface ≡ interface_of lines.now }
    requires can { CanTurn lines.now workings.old.services stacks.old t }
    requires room { vec_len workings.old.entries + most_lines ≤ vec_capacity workings.old.entries }
    ensures { TurnsInPlace lines.now t workings.old workings.new stacks.old stacks.new result }
{
    match stacks.lend_mut(t) {
        Some(stack) => turn(workings, lines, stack, t),
        None => unreachable!(),
    }
}

/// The spare stack is that of a thread that begins.
fn begin(
    spare: Stack,
    lines: &Lines,
    services: &Services,
    stacks: &mut Stacks,
    u: Tid,
    routine: NameId,
    arg: i64,
)
    requires spare { IsSpare spare }
    requires routine { IsRoutine lines.now routine }
    requires some { 1 ≤ frames_in (record_at services.now.threads u) }
    requires few { frames_in (record_at services.now.threads u) ≤ most_size }
    requires place { has_place stacks.old u.0 most ≡ true }
    ensures { Begins lines.now services.now.threads u routine arg stacks.old stacks.new }
{
    let mut stack = spare;
    begin_on(&mut stack, lines, u, services.frames(u), routine, arg);
    stacks.put(u, stack);
}

/// The table of stacks follows what a turn left of its thread.
pub fn settle(
    left: Left,
    t: Tid,
    lines: &Lines,
    services: &Services,
    stacks: &mut Stacks,
    spare: &mut Option<Stack>,
)
    requires spare { IfSome spare.old IsSpare }
    requires can { CanSettle lines.now services.now.threads t stacks.old spare.old left }
    ensures stacks { StacksAfter lines.now services.now.threads t stacks.old stacks.new left }
    ensures spare { IfSome spare.new IsSpare }
{
    match left {
        Left::Goes => {}
        Left::Begins(u, routine, arg) => {
            if let Some(stack) = spare.take() {
                begin(stack, lines, services, stacks, u, routine, arg);
            }
        }
        Left::Ended => {
            let _ = stacks.take(t);
        }
    }
}

/// The clock moves to this time, and lines are written for which there is room.
pub fn move_clock(workings: &mut Workings, now: i64)
    requires can { CanMove workings.old.services }
    requires room { vec_len workings.old.entries + most_lines ≤ vec_capacity workings.old.entries }
    ensures { MovesTo now workings.old workings.new }
{
    workings.gifts.clear();
    workings.services.move_clock(now, &mut workings.gifts);
    write(&mut workings.entries, Who::Clock, What::Clock(now));
    write_gifts(&mut workings.entries, workings.gifts.given());
}
