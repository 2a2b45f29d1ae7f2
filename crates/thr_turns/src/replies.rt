//! What a thread does with the reply of its call.

ghost use Rattle.std.specs.Prelude.{◌≡◌, ◌≤◌, ◌+◌, true, vec_len, vec_capacity};
ghost use Rattle.thr_text.specs.Reading.{Formed};
ghost use Rattle.thr_remainder.specs.Declarations.{interface_of};
ghost use Rattle.thr_remainder.specs.Remainders.{Remainder, has_room};
ghost use Rattle.thr_remainder.specs.Replies.{replied, needs_two_frames};
ghost use Rattle.thr_parts.specs.Replies.{is_blocks};
ghost use Rattle.thr_model.specs.States.{with_writes};
ghost use Rattle.thr_model.specs.Turns.{stores_of, after_reply, runs_if};
ghost use Rattle.thr_frames.specs.Stacks.{remainder_of, setting_of, IsStack, IsNextCall, CanNumber};
ghost use Rattle.thr_turns.specs.Replies.{begins_by};
ghost use Rattle.thr_turns.specs.Steps.{HasMoved, Keeps};

use crate::moves::begin_once;
use crate::stores::put_all;
use crate::workings::Workings;
use crate::writing::write_all;
use thr_frames::stack::Stack;
use thr_lines::lines::Lines;
use thr_services::answer::Answer;
use thr_stack::notes::Notes;
use thr_syntax::dce::DceCall;
use thr_trees::laws::{
    lines_and_names_are_few, named_routines_are_there, names_are_of_their_kinds,
};
use thr_values::history::Entry;
use thr_values::number::Tid;
use thr_values::reply::Reply;

/// Whether a reply is `blocks`.
fn is_blocks(reply: Reply) -> bool
    ensures { result ≡ is_blocks reply }
{
    matches!(reply, Reply::Blocks)
}

/// The thread takes the reply of the call that is next, which isn't `blocks`.
pub fn take_reply(workings: &mut Workings, lines: &Lines, stack: &mut Stack, t: Tid, reply: Reply)
    requires formed { Formed lines.now }
    requires interface { workings.old.interface ≡ interface_of lines.now }
    requires stack { IsStack lines.now stack.old }
    requires numbers { CanNumber (remainder_of lines.now stack.old) 1 }
    requires room { vec_len workings.old.entries + 1 ≤ vec_capacity workings.old.entries }
    ensures moved { HasMoved lines.now t (replied (setting_of lines.now stack.old) reply (remainder_of lines.now stack.old)) stack.old stack.new workings.old.entries.items workings.new.entries.items }
    ensures stored { workings.new.shared ≡ with_writes workings.old.shared (stores_of (remainder_of lines.now stack.old) reply) }
    ensures services { workings.new.services ≡ workings.old.services }
    ensures keeps { Keeps workings.old workings.new 1 }
{
    names_are_of_their_kinds();
    lines_and_names_are_few();
    let _ = stack.next_call(lines);
    workings.notes.clear();
    let writes = stack.give(lines, &reply, workings.interface, &mut workings.notes);
    put_all(&mut workings.shared, writes);
    write_all(&mut workings.entries, t, workings.notes.lines());
}

/// The caller of a once block begins its routine; another call begins nothing.
pub fn begin_routine(
    entries: &mut Vec<Entry>,
    notes: &mut Notes,
    lines: &Lines,
    stack: &mut Stack,
    t: Tid,
    call: &DceCall,
)
    requires formed { Formed lines.now }
    requires stack { IsStack lines.now stack.old }
    requires next { (r : Remainder) × IsNextCall lines.now r call.now }
    requires frames { needs_two_frames call.now ≡ true → has_room (setting_of lines.now stack.old) (remainder_of lines.now stack.old) 2 ≡ true }
    requires numbers { CanNumber (remainder_of lines.now stack.old) 1 }
    requires room { vec_len entries.old + 1 ≤ vec_capacity entries.old }
    ensures moved { HasMoved lines.now t (begins_by (setting_of lines.now stack.old) call.now (remainder_of lines.now stack.old)) stack.old stack.new entries.old.items entries.new.items }
    ensures few { vec_len entries.new ≤ vec_len entries.old + 1 }
    ensures capacity { vec_capacity entries.new ≡ vec_capacity entries.old }
{
    named_routines_are_there();
    match call {
        DceCall::Once(block, routine) => begin_once(
            entries, notes, lines, stack, t, *block, *routine,
        ),
        _ => {}
    }
}

/// The thread takes the reply of this call, which is next and isn't `blocks`, and begins the routine of its once block where it
/// is to run that.
pub fn take_reply_and_run(
    workings: &mut Workings,
    lines: &Lines,
    stack: &mut Stack,
    t: Tid,
    call: &DceCall,
    reply: Reply,
    runs: bool,
)
    requires formed { Formed lines.now }
    requires interface { workings.old.interface ≡ interface_of lines.now }
    requires stack { IsStack lines.now stack.old }
    requires next { IsNextCall lines.now (remainder_of lines.now stack.old) call.now }
    requires frames { needs_two_frames call.now ≡ true → has_room (setting_of lines.now stack.old) (remainder_of lines.now stack.old) 2 ≡ true }
    requires numbers { CanNumber (remainder_of lines.now stack.old) 2 }
    requires room { vec_len workings.old.entries + 2 ≤ vec_capacity workings.old.entries }
    ensures moved { HasMoved lines.now t (runs_if runs (setting_of lines.now stack.old) call.now (replied (setting_of lines.now stack.old) reply (remainder_of lines.now stack.old))) stack.old stack.new workings.old.entries.items workings.new.entries.items }
    ensures stored { workings.new.shared ≡ with_writes workings.old.shared (stores_of (remainder_of lines.now stack.old) reply) }
    ensures services { workings.new.services ≡ workings.old.services }
    ensures keeps { Keeps workings.old workings.new 2 }
{
    take_reply(workings, lines, stack, t, reply);
    if runs {
        begin_routine(
            &mut workings.entries,
            &mut workings.notes,
            lines,
            stack,
            t,
            call,
        );
    }
}

/// What the caller does after this answer to its call: nothing where the call blocks.
pub fn go_on(
    workings: &mut Workings,
    lines: &Lines,
    stack: &mut Stack,
    t: Tid,
    call: &DceCall,
    answer: Answer,
)
    requires formed { Formed lines.now }
    requires interface { workings.old.interface ≡ interface_of lines.now }
    requires stack { IsStack lines.now stack.old }
    requires next { IsNextCall lines.now (remainder_of lines.now stack.old) call.now }
    requires frames { needs_two_frames call.now ≡ true → has_room (setting_of lines.now stack.old) (remainder_of lines.now stack.old) 2 ≡ true }
    requires numbers { CanNumber (remainder_of lines.now stack.old) 2 }
    requires room { vec_len workings.old.entries + 2 ≤ vec_capacity workings.old.entries }
    ensures moved { HasMoved lines.now t (after_reply (setting_of lines.now stack.old) call.now answer.runs (remainder_of lines.now stack.old) answer.reply) stack.old stack.new workings.old.entries.items workings.new.entries.items }
    ensures stored { workings.new.shared ≡ with_writes workings.old.shared (stores_of (remainder_of lines.now stack.old) answer.reply) }
    ensures services { workings.new.services ≡ workings.old.services }
    ensures keeps { Keeps workings.old workings.new 2 }
{
    if !is_blocks(answer.reply) {
        take_reply_and_run(workings, lines, stack, t, call, answer.reply, answer.runs);
    }
}
