//! What a thread has still to do.

ghost use Rattle.std.specs.Prelude.{◌≡◌, ◌≢◌, ◌+◌, ◌≤◌, ◌<◌, [], length, IfOk, IfSome, MatchOption, true, false};
ghost use Rattle.std.specs.Option.{option_map};
ghost use Rattle.thr_values.specs.declared.number.NameId.{NameId};
ghost use Rattle.thr_syntax.specs.declared.tree.Script.{Script};
ghost use Rattle.thr_remainder.specs.Declarations.{interface_of};
ghost use Rattle.thr_remainder.specs.Expressions.{value_of};
ghost use Rattle.thr_remainder.specs.Next.{EndsOnce, UndoesOnce, next};
ghost use Rattle.thr_remainder.specs.Remainders.{Move, free, has_room, place_in};
ghost use Rattle.thr_remainder.specs.Replies.{replied, writes};
ghost use Rattle.thr_remainder.specs.Starts.{fresh, line_of_next, raised, exited, delivered, begins_once, begins_destructor};
ghost use Rattle.thr_remainder.specs.Steps.{shared_step, written};
ghost use Rattle.thr_stack.specs.Sights.{shared_of};
ghost use Rattle.thr_frames.specs.Replies.{stores_at, first_store, second_store, listed_writes};
ghost use Rattle.thr_frames.specs.Runs.{Ran, IsUndelivered, IsOutsideOnce};
ghost use Rattle.thr_frames.specs.Stacks.{remainder_of, setting_of, most_frames, IsStack, HasNoFrame, CanNumber, CanCall, IsRoutine, Makes, IsCounted, HasNoOnce, HasNoCall, IsNextCall, IsSet};

use crate::reply::{Writes, give};
use crate::run::run;
use crate::shared::shared_step;
use crate::stopped::Stopped;
use std::alloc::Global;
use std::marker::Model;
use thr_lines::lines::Lines;
use thr_stack::begin::{begin_destructor, begin_once};
use thr_stack::context::Context;
use thr_stack::frames::Frames;
use thr_stack::notes::Notes;
use thr_stack::once::{end_once, undo_once};
use thr_stack::place::line_of_step;
use thr_stack::raise::{deliver, exit, raise};
use thr_stack::sight::value;
use thr_stack::start::start;
use thr_syntax::dce::DceCall;
use thr_syntax::expr::Expr;
use thr_syntax::form::Form;
use thr_syntax::tree::Interface;
use thr_values::exception::Exc;
use thr_values::number::{Line, NameId, NoMemory, Tid};
use thr_values::reply::Reply;
use thr_values::scheduling::Mode;

/// What expressions see of the machine: the values of shared variables by the numbers of their names. A name past the end
/// has 0.
#[derive(Clone, Copy)]
pub struct Env<'a> {
    pub shared: &'a [i64],
}

/// What a thread has still to do (docs/machine.md, "What is left to do"). A step takes no memory: there is room for all
/// frames from `new` on.
#[derive(Drop)]
pub struct Stack {
    context: Context,
}

impl Model for Stack {
    ghost use Rattle.std.specs.Prelude.{◌<◌, ◌^◌};
    ghost use Rattle.thr_frames.specs.Stacks.{StackView};

    ghost Value = { StackView };

    ghost view = { λ a. record { context = a.context } };

    // So that the number of free frames is a u32.
    ghost invariant = { λ a. a.context.frames.size < 2 ^ 32 };
}

impl Stack {
    /// A stack of thread 0 that was not started, in which `size` frames fit.
    pub fn new(alloc: Global, size: u32) -> Result<Stack, NoMemory>
        ensures no_frame { IfOk result (λ k. HasNoFrame k) }
        ensures stack { IfOk result (λ k. (s : Script) → IsStack s k) }
        ensures setting { IfOk result (λ k. (s : Script) → setting_of s k ≡ record { script = s; me = 0; size = size }) }
        ensures most { IfOk result (λ k. most_frames k ≡ size) }
    {
        match Frames::new(alloc, size as usize) {
            Ok(frames) => Ok(Stack {
                context: Context {
                    frames,
                    line: 0,
                    under_way: None,
                    value: 0,
                    err: 0,
                    scopes: 0,
                    unwindings: 0,
                    me: 0,
                },
            }),
            Err(_) => Err(NoMemory),
        }
    }

    /// From now on so many frames fit, where the thread was not started.
    pub fn set_size(&mut self, size: u32)
        requires no_frame { HasNoFrame self.old }
        requires most { size ≤ most_frames self.old }
        ensures no_frame { HasNoFrame self.new }
        ensures stack { (s : Script) → IsStack s self.old → IsStack s self.new }
        ensures setting { (s : Script) → setting_of s self.new ≡ record (setting_of s self.old) { size = size } }
        ensures most { most_frames self.new ≡ most_frames self.old }
    {
        self.context.frames.set_size(size as usize);
    }

    /// From now on the stack is that of this thread, where it was not started. Its number is the value of `self`.
    pub fn set_me(&mut self, t: Tid)
        requires no_frame { HasNoFrame self.old }
        ensures no_frame { HasNoFrame self.new }
        ensures stack { (s : Script) → IsStack s self.old → IsStack s self.new }
        ensures setting { (s : Script) → setting_of s self.new ≡ record (setting_of s self.old) { me = t.0 } }
        ensures most { most_frames self.new ≡ most_frames self.old }
    {
        self.context.me = t.0;
    }

    /// All frames are dropped, so that the stack can be that of another thread.
    pub fn clear(&mut self)
        ensures no_frame { HasNoFrame self.new }
        ensures stack { (s : Script) → IsStack s self.new }
        ensures setting { (s : Script) → setting_of s self.new ≡ setting_of s self.old }
        ensures most { most_frames self.new ≡ most_frames self.old }
    {
        self.context.frames.clear();
    }

    /// The thread begins at this routine with this argument.
    pub fn start(&mut self, lines: &Lines, routine: NameId, arg: i64)
        requires routine { IsRoutine lines.now routine }
        requires no_frame { HasNoFrame self.old }
        requires room { 0 < (setting_of lines.now self.old).size }
        ensures fresh { remainder_of lines.now self.new ≡ fresh lines.now routine arg }
        ensures setting { setting_of lines.now self.new ≡ setting_of lines.now self.old }
        ensures stack { IsStack lines.now self.new }
    {
        start(lines, &mut self.context, routine, arg);
    }

    /// How many frames more fit.
    pub fn free(&self) -> u32
        ensures { (s : Script) → result ≡ free (setting_of s self.now) (remainder_of s self.now) }
    {
        self.context.frames.free() as u32
    }

    /// The line of the next step, whether an unwinding is under way or not; None exactly where no frame is left.
    pub fn place(&self, lines: &Lines) -> Option<Line>
        requires stack { IsStack lines.now self.now }
        ensures { option_map (λ l. l.0) result ≡ line_of_next (remainder_of lines.now self.now) }
    {
        if self.context.frames.is_empty() {
            return None;
        }
        Some(Line(line_of_step(lines, &self.context)))
    }

    /// The call of the thread service that is next; None exactly where no call is.
    pub fn next_call<'a>(&self, lines: &'a Lines) -> Option<&'a DceCall>
        requires stack { IsStack lines.now self.now }
        ensures { MatchOption result (HasNoCall (remainder_of lines.now self.now)) (λ call. IsNextCall lines.now (remainder_of lines.now self.now) call.now) }
    {
        if self.context.frames.is_empty() {
            return None;
        }
        match &lines.row(Line(line_of_step(lines, &self.context))).form {
            Form::Dce(call) => Some(call),
            _ => None,
        }
    }

    /// The value of an expression where the thread stands, or the exception that is raised in its place.
    pub fn value(&self, lines: &Lines, e: &Expr, env: &Env) -> Result<i64, Exc>
        requires stack { IsStack lines.now self.now }
        requires some { (remainder_of lines.now self.now).items ≢ [] }
        ensures { result ≡ value_of (setting_of lines.now self.now) (shared_of env.now.shared.now) (remainder_of lines.now self.now) e.now }
    {
        value(lines, &self.context, e, env.shared)
    }

    /// The step at the innermost place, which is a shared statement where the machine calls it, with its line. Answers the
    /// shared variable that it sets, with the value. At a call of the thread service, and where no frame is left, nothing
    /// changes.
    pub fn shared_step(
        &mut self,
        lines: &Lines,
        env: &Env,
        notes: &mut Notes,
    ) -> Option<(NameId, i64)>
        requires stack { IsStack lines.now self.old }
        requires calls { CanCall lines.now }
        requires numbers { CanNumber (remainder_of lines.now self.old) 1 }
        requires room { length notes.old < 136 }
        ensures steps { Makes lines.now (shared_step (setting_of lines.now self.old) (shared_of env.now.shared.now) (remainder_of lines.now self.old)) self.old self.new notes.old notes.new }
        ensures written { result ≡ written (setting_of lines.now self.old) (shared_of env.now.shared.now) (remainder_of lines.now self.old) }
        ensures set { IfSome result (λ w. IsSet lines.now w.0) }
        ensures lines { length notes.new ≤ length notes.old + 1 }
        ensures counted { IsCounted (remainder_of lines.now self.old) (remainder_of lines.now self.new) notes.old notes.new }
        ensures once { HasNoOnce (remainder_of lines.now self.old) → HasNoOnce (remainder_of lines.now self.new) }
    {
        shared_step(lines, &mut self.context, env.shared, notes)
    }

    /// Gives the call that is next its reply: the values go to its local variables, `err` is the reply's number, the thread is
    /// past the call, and an error raises where the interface says so. Answers what the call writes to shared variables, which
    /// the caller does. Where no call is next, nothing changes.
    pub fn give(
        &mut self,
        lines: &Lines,
        reply: &Reply,
        interface: Interface,
        notes: &mut Notes,
    ) -> Writes
        requires stack { IsStack lines.now self.old }
        requires interface { interface ≡ interface_of lines.now }
        requires numbers { CanNumber (remainder_of lines.now self.old) 1 }
        requires room { length notes.old < 136 }
        ensures replied { Makes lines.now (replied (setting_of lines.now self.old) reply.now (remainder_of lines.now self.old)) self.old self.new notes.old notes.new }
        ensures first { result.first ≡ first_store (stores_at (place_in (remainder_of lines.now self.old).items) reply.now) }
        ensures second { result.second ≡ second_store (stores_at (place_in (remainder_of lines.now self.old).items) reply.now) }
        ensures writes { listed_writes result ≡ writes (remainder_of lines.now self.old) reply.now }
        ensures lines { length notes.new ≤ length notes.old + 1 }
        ensures as_many { length (remainder_of lines.now self.new).items ≡ length (remainder_of lines.now self.old).items }
    {
        give(lines, &mut self.context, reply, interface, notes)
    }

    /// The routine of a once block begins, with argument 0, where the thread stands.
    pub fn push_once(&mut self, lines: &Lines, block: NameId, routine: NameId, notes: &mut Notes)
        requires stack { IsStack lines.now self.old }
        requires routine { IsRoutine lines.now routine }
        requires room { has_room (setting_of lines.now self.old) (remainder_of lines.now self.old) 2 ≡ true }
        requires numbers { CanNumber (remainder_of lines.now self.old) 1 }
        requires notes { length notes.old < 136 }
        ensures makes { Makes lines.now (begins_once (setting_of lines.now self.old) block routine (remainder_of lines.now self.old)) self.old self.new notes.old notes.new }
        ensures lines { length notes.new ≤ length notes.old + 1 }
    {
        begin_once(lines, &mut self.context, notes, block, routine);
    }

    /// The destructor of a key begins, with the thread's value. It is called where no frame is left.
    pub fn push_barrier(
        &mut self,
        lines: &Lines,
        key: NameId,
        routine: NameId,
        value: i64,
        notes: &mut Notes,
    )
        requires stack { IsStack lines.now self.old }
        requires routine { IsRoutine lines.now routine }
        requires room { has_room (setting_of lines.now self.old) (remainder_of lines.now self.old) 2 ≡ true }
        requires numbers { CanNumber (remainder_of lines.now self.old) 1 }
        requires notes { length notes.old < 136 }
        ensures makes { Makes lines.now (begins_destructor (setting_of lines.now self.old) key routine value (remainder_of lines.now self.old)) self.old self.new notes.old notes.new }
        ensures lines { length notes.new ≤ length notes.old + 1 }
    {
        begin_destructor(lines, &mut self.context, notes, key, routine, value);
    }

    /// The routine of a once block has ended, and the block is done. Answers the block.
    pub fn once_done(&mut self, lines: &Lines, notes: &mut Notes) -> NameId
        requires stack { IsStack lines.now self.old }
        requires ends { (block : NameId) × (move : Move) × (next (setting_of lines.now self.old) (remainder_of lines.now self.old) ≡ EndsOnce block move) }
        requires room { length notes.old < 136 }
        ensures done { (move : Move) × (next (setting_of lines.now self.old) (remainder_of lines.now self.old) ≡ EndsOnce result move) × Makes lines.now move self.old self.new notes.old notes.new }
        ensures lines { length notes.new ≤ length notes.old + 1 }
    {
        end_once(lines, &mut self.context, notes)
    }

    /// The unwinding under way undoes a once block. Answers the block.
    pub fn once_undone(&mut self, lines: &Lines, notes: &mut Notes) -> NameId
        requires stack { IsStack lines.now self.old }
        requires undoes { (block : NameId) × (move : Move) × (next (setting_of lines.now self.old) (remainder_of lines.now self.old) ≡ UndoesOnce block move) }
        requires room { length notes.old < 136 }
        ensures undone { (move : Move) × (next (setting_of lines.now self.old) (remainder_of lines.now self.old) ≡ UndoesOnce result move) × Makes lines.now move self.old self.new notes.old notes.new }
        ensures lines { length notes.new ≤ length notes.old + 1 }
    {
        undo_once(lines, &mut self.context, notes)
    }
}

/// An exception is raised where the thread stands.
pub fn raise_at(lines: &Lines, stack: &mut Stack, x: Exc, notes: &mut Notes)
    requires stack { IsStack lines.now stack.old }
    requires numbers { CanNumber (remainder_of lines.now stack.old) 1 }
    requires room { length notes.old < 136 }
    ensures makes { Makes lines.now (raised x (remainder_of lines.now stack.old)) stack.old stack.new notes.old notes.new }
    ensures lines { length notes.new ≤ length notes.old + 1 }
{
    let _ = lines;
    raise(&mut stack.context, notes, x);
}

/// The thread exits with this value where it stands.
pub fn exit_at(lines: &Lines, stack: &mut Stack, value: i64, notes: &mut Notes)
    requires stack { IsStack lines.now stack.old }
    requires numbers { CanNumber (remainder_of lines.now stack.old) 1 }
    requires room { length notes.old < 136 }
    ensures makes { Makes lines.now (exited value (remainder_of lines.now stack.old)) stack.old stack.new notes.old notes.new }
    ensures lines { length notes.new ≤ length notes.old + 1 }
{
    let _ = lines;
    exit(&mut stack.context, notes, value);
}

/// A cancel is delivered where the thread stands, in place of its next step.
pub fn deliver_at(lines: &Lines, stack: &mut Stack, notes: &mut Notes)
    requires stack { IsStack lines.now stack.old }
    requires numbers { CanNumber (remainder_of lines.now stack.old) 1 }
    requires room { length notes.old < 136 }
    ensures makes { Makes lines.now (delivered (remainder_of lines.now stack.old)) stack.old stack.new notes.old notes.new }
    ensures lines { length notes.new ≤ length notes.old + 1 }
{
    deliver(lines, &mut stack.context, notes);
}

/// The quiet part of a turn: at most 64 quiet steps, and the unwindings between them. Answers what ends it.
pub fn local_run(lines: &Lines, stack: &mut Stack, mode: &Mode, notes: &mut Notes) -> Stopped
    requires stack { IsStack lines.now stack.old }
    requires calls { CanCall lines.now }
    requires empty { notes.old ≡ [] }
    requires numbers { CanNumber (remainder_of lines.now stack.old) 136 }
    ensures ran { Ran lines.now mode.now stack.old stack.new notes.new result }
    ensures lines { length notes.new ≤ 130 }
    ensures counted { IsCounted (remainder_of lines.now stack.old) (remainder_of lines.now stack.new) notes.old notes.new }
    ensures pending { mode.now.pending ≡ false → IsUndelivered result }
    ensures once { HasNoOnce (remainder_of lines.now stack.old) → HasNoOnce (remainder_of lines.now stack.new) × IsOutsideOnce result }
{
    run(lines, &mut stack.context, *mode, notes)
}
