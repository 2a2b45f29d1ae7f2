//! Calls of the thread service.

ghost use Rattle.std.specs.Prelude.{◌≡◌, ◌≤◌, ◌+◌, length, true, vec_len, vec_capacity};
ghost use Rattle.thr_text.specs.Reading.{Formed};
ghost use Rattle.thr_remainder.specs.Declarations.{interface_of};
ghost use Rattle.thr_remainder.specs.Remainders.{has_room};
ghost use Rattle.thr_remainder.specs.Replies.{needs_two_frames};
ghost use Rattle.thr_remainder.specs.Replies as replies;
ghost use Rattle.thr_parts.specs.Rows.{most};
ghost use Rattle.thr_model.specs.States.{shared_values};
ghost use Rattle.thr_model.specs.Calls.{answered};
ghost use Rattle.thr_model.specs.Turns.{call_made, called};
ghost use Rattle.thr_services.specs.Answers.{listed};
ghost use Rattle.thr_services.specs.Sound.{IsSound};
ghost use Rattle.thr_frames.specs.Stacks.{remainder_of, setting_of, IsStack, IsNextCall, CanNumber};
ghost use Rattle.thr_turns.specs.Replies.{created_by, left_by};
ghost use Rattle.thr_turns.specs.Steps.{Steps, Keeps};

use crate::moves::raise;
use crate::replies::go_on;
use crate::workings::{Left, Workings};
use crate::writing::{write, write_gifts};
use thr_asking::asking::asked;
use thr_asking::saying::call_line;
use thr_frames::stack::{Env, Stack};
use thr_lines::lines::Lines;
use thr_services::answer::{Numbers, first};
use thr_syntax::dce::DceCall;
use thr_trees::laws::{
    lines_and_names_are_few, named_routines_are_there, names_are_of_their_kinds,
};
use thr_values::number::{NameId, Tid};

/// The routine at which the thread begins that a call makes, if it is to make one.
fn created_by(call: &DceCall) -> Option<NameId>
    ensures { result ≡ created_by call.now }
{
    match call {
        DceCall::Create(_, _, routine, _) => Some(*routine),
        _ => None,
    }
}

/// What a call leaves of its caller, where the thread that is there was made by it.
fn left_by(call: &DceCall, ns: Numbers, begins: Option<(Tid, NameId, i64)>) -> Left
    ensures { result ≡ left_by call.now (listed ns) begins }
{
    match begins {
        None => Left::Goes,
        Some((new, _, _)) => match created_by(call) {
            None => Left::Goes,
            Some(routine) => Left::Begins(new, routine, first(ns)),
        },
    }
}

/// The call that is next is made: its expressions are valued, and it is answered, or what they raise is raised in its place.
pub fn make_call(
    workings: &mut Workings,
    lines: &Lines,
    stack: &mut Stack,
    t: Tid,
    call: &DceCall,
) -> Left
    requires formed { Formed lines.now }
    requires interface { workings.old.interface ≡ interface_of lines.now }
    requires stack { IsStack lines.now stack.old }
    requires sound { IsSound workings.old.services t }
    requires seats { length workings.old.services.rows.seats ≤ most }
    requires next { IsNextCall lines.now (remainder_of lines.now stack.old) call.now }
    requires numbers { CanNumber (remainder_of lines.now stack.old) 2 }
    requires room { vec_len workings.old.entries + 1028 ≤ vec_capacity workings.old.entries }
    ensures steps { Steps lines.now t workings.old workings.new stack.old stack.new result (λ st. called lines.now st t (setting_of lines.now stack.old) call.now (remainder_of lines.now stack.old) (replies.asked (setting_of lines.now stack.old) (shared_values st) call.now (remainder_of lines.now stack.old))) }
    ensures keeps { Keeps workings.old workings.new 1028 }
{
    let env = Env {
        shared: workings.shared.values(),
    };
    match asked(lines, stack, call, &env) {
        Ok(ns) => answer_call(workings, lines, stack, t, call, ns),
        Err(x) => {
            raise(
                &mut workings.entries,
                &mut workings.notes,
                lines,
                stack,
                t,
                x,
            );
            Left::Goes
        }
    }
}

/// The call that is next, whose expressions have these values, is answered.
fn answer_call(
    workings: &mut Workings,
    lines: &Lines,
    stack: &mut Stack,
    t: Tid,
    call: &DceCall,
    ns: Numbers,
) -> Left
    requires formed { Formed lines.now }
    requires interface { workings.old.interface ≡ interface_of lines.now }
    requires stack { IsStack lines.now stack.old }
    requires sound { IsSound workings.old.services t }
    requires seats { length workings.old.services.rows.seats ≤ most }
    requires next { IsNextCall lines.now (remainder_of lines.now stack.old) call.now }
    requires frames { needs_two_frames call.now ≡ true → has_room (setting_of lines.now stack.old) (remainder_of lines.now stack.old) 2 ≡ true }
    requires numbers { CanNumber (remainder_of lines.now stack.old) 2 }
    requires room { vec_len workings.old.entries + 1028 ≤ vec_capacity workings.old.entries }
    ensures steps { Steps lines.now t workings.old workings.new stack.old stack.new result (λ st. call_made t (setting_of lines.now stack.old) call.now (listed ns) (remainder_of lines.now stack.old) (answered lines.now st t call.now (listed ns))) }
    ensures keeps { Keeps workings.old workings.new 1028 }
{
    names_are_of_their_kinds();
    lines_and_names_are_few();
    named_routines_are_there();
    let answer = workings.services.answer(t, call, ns, &mut workings.gifts);
    write(&mut workings.entries, t, call_line(call, ns, answer.reply));
    write_gifts(&mut workings.entries, workings.gifts.given());
    go_on(workings, lines, stack, t, call, answer);
    left_by(call, ns, answer.begins)
}
