//! What a thread owes.

ghost use Rattle.std.specs.Prelude.{◌≡◌, ◌≤◌, ◌+◌, true, vec_len, vec_capacity};
ghost use Rattle.thr_text.specs.Reading.{Formed};
ghost use Rattle.thr_remainder.specs.Declarations.{interface_of};
ghost use Rattle.thr_remainder.specs.Remainders.{has_room};
ghost use Rattle.thr_model.specs.Turns.{debt_made};
ghost use Rattle.thr_services.specs.Views.{as_owed};
ghost use Rattle.thr_services.specs.declared.debt.Debt.TheVariants as owed;
ghost use Rattle.thr_frames.specs.Stacks.{remainder_of, setting_of, IsStack, CanNumber};
ghost use Rattle.thr_turns.specs.declared.workings.Left.TheVariants.{Goes};
ghost use Rattle.thr_turns.specs.Steps.{Steps, Keeps};

use crate::ends::deliver_cancel;
use crate::replies::{take_reply, take_reply_and_run};
use crate::workings::Workings;
use crate::writing::write;
use thr_frames::stack::Stack;
use thr_lines::lines::Lines;
use thr_services::debt::Debt;
use thr_values::history::What;
use thr_values::number::Tid;
use thr_values::reply::Reply;

/// The thread makes what it owed.
pub fn make_debt(workings: &mut Workings, lines: &Lines, stack: &mut Stack, t: Tid, debt: Debt)
    requires formed { Formed lines.now }
    requires interface { workings.old.interface ≡ interface_of lines.now }
    requires stack { IsStack lines.now stack.old }
    requires running { debt ≡ owed.Running → has_room (setting_of lines.now stack.old) (remainder_of lines.now stack.old) 2 ≡ true }
    requires numbers { CanNumber (remainder_of lines.now stack.old) 2 }
    requires room { vec_len workings.old.entries + 3 ≤ vec_capacity workings.old.entries }
    ensures steps { Steps lines.now t workings.old workings.new stack.old stack.new Goes (λ st. debt_made st t (setting_of lines.now stack.old) (remainder_of lines.now stack.old) (as_owed debt)) }
    ensures keeps { Keeps workings.old workings.new 3 }
{
    match debt {
        Debt::Return(reply) => {
            write(&mut workings.entries, t, What::Ret(reply));
            take_reply(workings, lines, stack, t, reply);
        }
        Debt::Delivery => deliver_cancel(workings, lines, stack, t),
        Debt::Running => run_block(workings, lines, stack, t),
    }
}

/// The call of the once block for which the thread waited returns, and the thread begins its routine.
fn run_block(workings: &mut Workings, lines: &Lines, stack: &mut Stack, t: Tid)
    requires formed { Formed lines.now }
    requires interface { workings.old.interface ≡ interface_of lines.now }
    requires stack { IsStack lines.now stack.old }
    requires frames { has_room (setting_of lines.now stack.old) (remainder_of lines.now stack.old) 2 ≡ true }
    requires numbers { CanNumber (remainder_of lines.now stack.old) 2 }
    requires room { vec_len workings.old.entries + 3 ≤ vec_capacity workings.old.entries }
    ensures steps { Steps lines.now t workings.old workings.new stack.old stack.new Goes (λ st. debt_made st t (setting_of lines.now stack.old) (remainder_of lines.now stack.old) (as_owed owed.Running)) }
    ensures keeps { Keeps workings.old workings.new 3 }
{
    write(&mut workings.entries, t, What::Ret(Reply::Done));
    match stack.next_call(lines) {
        None => take_reply(workings, lines, stack, t, Reply::Done),
        Some(call) => take_reply_and_run(workings, lines, stack, t, call, Reply::Done, true),
    }
}
