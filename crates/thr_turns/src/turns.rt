//! Turns of threads.

ghost use Rattle.std.specs.Prelude.{◌≡◌, ◌≤◌, ◌<◌, ◌+◌, ◌^◌, length, IfSome, vec_len, vec_capacity};
ghost use Rattle.thr_text.specs.Reading.{Formed};
ghost use Rattle.thr_remainder.specs.Declarations.{interface_of};
ghost use Rattle.thr_remainder.specs.Runs.{Halt, run_of, most_steps};
ghost use Rattle.thr_parts.specs.Tables.{names};
ghost use Rattle.thr_parts.specs.Rows.{most};
ghost use Rattle.thr_parts.specs.Keys.{next_destructor};
ghost use Rattle.thr_parts.specs.Threads.{record_at};
ghost use Rattle.thr_parts.specs.Cancels.{mode_at};
ghost use Rattle.thr_model.specs.States.{frames_in, debt_of};
ghost use Rattle.thr_model.specs.Turns.{halt_made, run_made, turn_by};
ghost use Rattle.thr_services.specs.Sound.{IsSound};
ghost use Rattle.thr_frames.specs.Stacks.{remainder_of, setting_of, IsStack, IsRoutine, CanNumber};
ghost use Rattle.thr_frames.specs.Runs.{IsHalt};
ghost use Rattle.thr_turns.specs.Steps.{Steps, Keeps, IsTurnBy, IsTurn, most_lines};
ghost use Rattle.thr_open_onces.specs.Blocks.{block_of};
ghost use Rattle.thr_turns.specs.Ready.{IsReady, CanHalt};

use crate::debts::make_debt;
use crate::ends::{complete_block, deliver_cancel, end_thread, make_shared, undo_block};
use crate::quiet::run_quietly;
use crate::workings::{Left, Workings};
use thr_frames::stack::Stack;
use thr_frames::stopped::Stopped;
use thr_lines::lines::Lines;
use thr_values::number::Tid;

/// Makes the turn of a thread that runs: what it owes, or else the quiet part and what ends that. After it the thread keeps its
/// processor or gives it up. For all lines of a turn there is room.
pub fn turn(workings: &mut Workings, lines: &Lines, stack: &mut Stack, t: Tid) -> Left
    requires formed { Formed lines.now }
    requires interface { workings.old.interface ≡ interface_of lines.now }
    requires stack { IsStack lines.now stack.old }
    requires setting { setting_of lines.now stack.old ≡ record { script = lines.now; me = t.0; size = frames_in (record_at workings.old.services.threads t) } }
    requires ready { IsReady lines.now workings.old.services stack.old t }
    requires room { vec_len workings.old.entries + most_lines ≤ vec_capacity workings.old.entries }
    ensures { IsTurn lines.now t workings.old workings.new stack.old stack.new result }
{
    let left = make(workings, lines, stack, t);
    workings.services.keep(t);
    left
}

/// Makes the turn but for the processor.
fn make(workings: &mut Workings, lines: &Lines, stack: &mut Stack, t: Tid) -> Left
    requires formed { Formed lines.now }
    requires interface { workings.old.interface ≡ interface_of lines.now }
    requires stack { IsStack lines.now stack.old }
    requires setting { setting_of lines.now stack.old ≡ record { script = lines.now; me = t.0; size = frames_in (record_at workings.old.services.threads t) } }
    requires ready { IsReady lines.now workings.old.services stack.old t }
    requires room { vec_len workings.old.entries + most_lines ≤ vec_capacity workings.old.entries }
    ensures { IsTurnBy lines.now t workings.old workings.new stack.old stack.new result (λ st. turn_by lines.now st t (debt_of st t)) }
{
    match workings.services.take_debt(t) {
        Some(debt) => {
            make_debt(workings, lines, stack, t, debt);
            Left::Goes
        }
        None => run(workings, lines, stack, t),
    }
}

/// Runs the quiet part of a turn, and makes what ends it.
fn run(workings: &mut Workings, lines: &Lines, stack: &mut Stack, t: Tid) -> Left
    requires formed { Formed lines.now }
    requires interface { workings.old.interface ≡ interface_of lines.now }
    requires stack { IsStack lines.now stack.old }
    requires sound { IsSound workings.old.services t }
    requires seats { length workings.old.services.rows.seats ≤ most }
    requires frames { 2 ≤ (setting_of lines.now stack.old).size }
    requires destructors { IfSome (next_destructor workings.old.services.onces.state t).call (λ c. IsRoutine lines.now c.1) }
    requires numbers { CanNumber (remainder_of lines.now stack.old) 200 }
    requires blocks { IfSome (block_of (run_of most_steps (setting_of lines.now stack.old) (mode_at workings.old.services.threads t) (remainder_of lines.now stack.old)).halt) (λ o. o.0 < names) }
    requires room { vec_len workings.old.entries + 1158 ≤ vec_capacity workings.old.entries }
    ensures steps { Steps lines.now t workings.old workings.new stack.old stack.new result (λ st. run_made lines.now st t (setting_of lines.now stack.old) (run_of most_steps (setting_of lines.now stack.old) (mode_at st.threads t) (remainder_of lines.now stack.old))) }
    ensures keeps { Keeps workings.old workings.new 1158 }
{
    let mode = workings.services.mode(t);
    let stopped = run_quietly(
        &mut workings.entries,
        &mut workings.notes,
        lines,
        stack,
        t,
        mode,
    );
    halt(workings, lines, stack, t, stopped)
}

/// Makes what has ended the quiet part of a turn.
fn halt(workings: &mut Workings, lines: &Lines, stack: &mut Stack, t: Tid, stopped: Stopped) -> Left
    requires formed { Formed lines.now }
    requires interface { workings.old.interface ≡ interface_of lines.now }
    requires stack { IsStack lines.now stack.old }
    requires sound { IsSound workings.old.services t }
    requires seats { length workings.old.services.rows.seats ≤ most }
    requires frames { 2 ≤ (setting_of lines.now stack.old).size }
    requires destructors { IfSome (next_destructor workings.old.services.onces.state t).call (λ c. IsRoutine lines.now c.1) }
    requires numbers { CanNumber (remainder_of lines.now stack.old) 2 }
    requires halt { CanHalt lines.now stack.old stopped }
    requires room { vec_len workings.old.entries + 1028 ≤ vec_capacity workings.old.entries }
    ensures steps { (h : Halt) → IsHalt (setting_of lines.now stack.old) (remainder_of lines.now stack.old) stopped h
        → Steps lines.now t workings.old workings.new stack.old stack.new result (λ st. halt_made lines.now st t (setting_of lines.now stack.old) (remainder_of lines.now stack.old) h) }
    ensures keeps { Keeps workings.old workings.new 1028 }
{
    match stopped {
        Stopped::Shared(_) => make_shared(workings, lines, stack, t),
        Stopped::Ended(value) => end_thread(workings, lines, stack, t, value),
        Stopped::Point(_) | Stopped::Async(_) => {
            deliver_cancel(workings, lines, stack, t);
            Left::Goes
        }
        Stopped::OnceDone => {
            complete_block(workings, lines, stack, t);
            Left::Goes
        }
        Stopped::OnceUndone => {
            undo_block(workings, lines, stack, t);
            Left::Goes
        }
        Stopped::Paused => Left::Goes,
    }
}
