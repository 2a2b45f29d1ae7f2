//! The book: the machine with the history of its events.

ghost use Rattle.std.specs.Prelude.{◌≡◌, ◌≤◌, ◌<◌, ◌↔◌, IsTrue, IfOk, IsSome, IfSome, IfNone, OnOk, OnErr, None, Some, is_some, true, false};
ghost use Rattle.thr_values.specs.declared.event.Event.TheVariants as event;
ghost use Rattle.thr_parts.specs.declared.row.RowId.TheVariants as row;
ghost use Rattle.thr_parts.specs.Dispatch.{running};
ghost use Rattle.thr_parts.specs.Rows.{best};
ghost use Rattle.thr_model.specs.Events.{made_by};
ghost use Rattle.thr_model.specs.Histories.{StopsWith, Legal};
ghost use Rattle.thr_model.specs.States.{declared_values};
ghost use Rattle.thr_parts.specs.Tables.{get, has};
ghost use Rattle.thr_text.specs.Reading.{Formed};

use crate::memory::{has_memory, take_memory};
use crate::opening::{first_stacks, first_workings, limit_of, names_fit};
use crate::ready::{
    clocks_find_what_they_ask, stacks_stand_after_events, threads_have_frames_and_places,
    turns_find_what_they_ask,
};
use crate::stepping::{move_clock, settle, turn_in_place};
use crate::stopping::{is_full, stop_among, stop_at_limit};
use crate::writing::{write, write_gifts};
use sqlite_items::Items;
use std::alloc::Global;
use std::marker::Model;
use thr_counts::laws::counts_rise_with_the_lines;
use thr_frames::stack::Stack;
use thr_lines::lines::Lines;
use thr_model::laws::states_stay_canonical;
use thr_stacks::Stacks;
use thr_stacks::laws::{remainders_change_with_stacks, stacks_go_on_standing};
use thr_syntax::journal::Journal;
use thr_syntax::tree::Script;
use thr_turns::workings::Workings;
use thr_values::event::Stop;
use thr_values::history::{Entry, What, Who};
use thr_values::number::{NameId, NoMemory, Tid};
use thr_variables::laws::shared_variables_stay_declared;
use thr_waiting::laws::parts_agree_on_who_waits;

/// A machine that is opened on a script, with its history. Contracts see its script, its workers, its state, the lines of
/// its history, how many of its events were turns, the stop that was made, and whether there is memory for one event
/// (docs/machine.md, "Histories").
#[derive(Drop)]
pub struct Book {
    alloc: Global,
    lines: Lines,
    workings: Workings,
    stacks: Stacks,
    /// A stack for the next thread that begins.
    spare: Option<Stack>,
    workers: u32,
    turns: u64,
    limit: u64,
    stopped: Option<Stop>,
}

impl Model for Book {
    ghost use Rattle.thr_machine.specs.Views.{BookView};
    ghost use Rattle.std.specs.Coded.{codes};
    ghost use Rattle.thr_syntax.specs.contracts.tree.Stmt as stmt;
    ghost use Rattle.thr_syntax.specs.contracts.expr.Expr as expr;

    ghost Value = { BookView };

    ghost coded = { Prim.hlevel (codes, stmt.the_row.coded, expr.the_row.coded) };

    ghost use Rattle.thr_machine.specs.Books.{view_of, IsKept};

    ghost view = { view_of };

    ghost invariant = { IsKept };
}

/// How many names a script has at most.
const NAMES: usize = 1010;

impl Book {
    ghost use Rattle.thr_machine.specs.Books.{IsOpened, IsOpen, Makes, RoomOnly, IsReached, stop_of};

    /// A machine of `workers` processors, opened on the script.
    pub fn new(alloc: Global, script: Script, workers: u32) -> Result<Book, NoMemory>
        requires formed { Formed script }
        requires some { 1 ≤ workers }
        requires few { workers ≤ 16 }
        ensures { IfOk result (λ b. IsOpened b script workers) }
    {
        remainders_change_with_stacks();
        stacks_go_on_standing();
        let workings = first_workings(alloc, &script)?;
        let limit = limit_of(script.items.as_slice());
        let lines = Lines::build(alloc, script)?;
        let stacks = first_stacks(alloc, &lines)?;
        Ok(Book {
            alloc,
            lines,
            workings,
            stacks,
            spare: None,
            workers,
            turns: 0,
            limit,
            stopped: None,
        })
    }

    /// Takes the memory for one event. Of the calls on a book it alone can find none.
    pub fn make_room(&mut self) -> Result<(), NoMemory>
        ensures ok { OnOk result (self.new.room ≡ true) }
        ensures same { RoomOnly self.old self.new }
        ensures err { OnErr result (self.new ≡ self.old) }
    {
        take_memory(self.alloc, &mut self.workings, &mut self.spare)
    }

    /// Whether there is memory for one event.
    pub fn room(&self) -> bool
        ensures { IsTrue result ↔ (self.now.room ≡ true) }
    {
        has_memory(&self.workings, &self.spare)
    }

    /// The thread that processor `p` has.
    pub fn running(&self, p: u32) -> Option<Tid>
        ensures { result ≡ running self.now.state.rows p }
    {
        self.workings.services.running(p)
    }

    /// Processor `p` takes the best ready thread. The answer is None exactly where that isn't legal.
    pub fn dispatch(&mut self, p: u32) -> Option<Tid>
        requires { IsOpen self.old }
        ensures made { IfSome result (λ t. Makes self.old self.new (event.Dispatch p)) }
        ensures thread { IfSome result (λ t. running self.new.state.rows p ≡ Some t) }
        ensures none { IfNone result ((made_by self.old.script self.old.workers self.old.state (event.Dispatch p) ≡ None) × (self.new ≡ self.old)) }
        ensures taken { p < self.old.workers → running self.old.state.rows p ≡ None → IsSome (best self.old.state.rows row.Ready) → IsSome result }
    {
        if p >= self.workers {
            return None;
        }
        stacks_stand_after_events();
        remainders_change_with_stacks();
        states_stay_canonical();
        match self.workings.services.dispatch(p) {
            None => None,
            Some(t) => {
                write(&mut self.workings.entries, Who::Proc(p), What::Run(t));
                Some(t)
            }
        }
    }

    /// The thread that processor `p` has makes a turn.
    pub fn turn(&mut self, p: u32)
        requires open { IsOpen self.old }
        requires runs { IsSome (running self.old.state.rows p) }
        ensures { Makes self.old self.new (event.Turn p) }
    {
        let Some(t) = self.workings.services.running(p) else {
            unreachable!()
        };
        turns_find_what_they_ask();
        threads_have_frames_and_places();
        stacks_stand_after_events();
        remainders_change_with_stacks();
        stacks_go_on_standing();
        states_stay_canonical();
        counts_rise_with_the_lines();
        let left = turn_in_place(&mut self.workings, &self.lines, &mut self.stacks, t);
        settle(
            left,
            t,
            &self.lines,
            &self.workings.services,
            &mut self.stacks,
            &mut self.spare,
        );
        self.turns += 1;
    }

    /// The clock moves. The answer is false exactly where that isn't legal, and then nothing changes.
    pub fn clock(&mut self) -> bool
        requires { IsOpen self.old }
        ensures made { result ≡ true → Makes self.old self.new event.Clock }
        ensures none { result ≡ false → (made_by self.old.script self.old.workers self.old.state event.Clock ≡ None) × (self.new ≡ self.old) }
    {
        if self.workings.services.some_can_run() {
            return false;
        }
        clocks_find_what_they_ask();
        stacks_stand_after_events();
        remainders_change_with_stacks();
        counts_rise_with_the_lines();
        match self.workings.services.earliest() {
            None => false,
            Some(now) => {
                move_clock(&mut self.workings, now);
                true
            }
        }
    }

    /// The stop that holds, want of memory aside.
    pub fn stop_test(&self) -> Option<Stop>
        ensures value { result ≡ stop_of self.now }
        ensures reached { IsReached self.now }
    {
        let full = is_full(self.workings.entries.len(), self.limit);
        if self.workings.services.some_can_run() {
            // A thread that is ready or runs has not ended, so nobody need be counted.
            parts_agree_on_who_waits();
            return stop_at_limit(full);
        }
        let (count, first) = self.workings.services.live();
        let going = self.workings.services.earliest().is_some();
        stop_among(count, first, going, full)
    }

    /// Stops the machine, for the reason that holds, or for want of memory where none does.
    pub fn stop(&mut self, why: Stop)
        requires going { self.old.stopped ≡ None }
        requires holds { StopsWith (stop_of self.old) why }
        ensures { self.new ≡ record self.old { stopped = Some why } }
    {
        self.stopped = Some(why);
    }

    /// Why the machine was stopped, where it was.
    pub fn stopped(&self) -> Option<Stop>
        ensures value { result ≡ self.now.stopped }
        ensures legal { IfSome result (λ why. Legal self.now.script self.now.workers self.now.entries why) }
    {
        self.stopped
    }

    /// The lines of the history.
    pub fn entries(&self) -> &[Entry]
        ensures { result.now ≡ self.now.entries }
    {
        self.workings.entries.as_slice()
    }

    /// How many of the events were turns.
    pub fn turns(&self) -> u64
        ensures value { result ≡ self.now.turns }
        ensures reached { IsReached self.now }
    {
        self.turns
    }

    /// The value of a shared variable; None exactly where the script declares no shared variable of that name.
    pub fn shared_value(&self, name: NameId) -> Option<i64>
        ensures value { result ≡ get self.now.state.shared name.0 }
        ensures declared { is_some result ≡ has (declared_values self.now.script.items) name.0 }
    {
        let shared = &self.workings.shared;
        names_fit();
        shared_variables_stay_declared();
        if name.0 as usize >= NAMES {
            return None;
        }
        shared.get(name)
    }

    /// The run as a journal, whose history is legal.
    pub fn into_journal(self) -> Journal
        requires { IsSome self.stopped }
        ensures script { result.script ≡ self.script }
        ensures workers { result.workers ≡ self.workers }
        ensures entries { result.entries ≡ self.entries }
        ensures stop { self.stopped ≡ Some result.stop }
        ensures legal { Legal result.script result.workers result.entries result.stop }
    {
        let Book {
            lines,
            workings,
            workers,
            stopped,
            ..
        } = self;
        let Workings { entries, .. } = workings;
        match stopped {
            Some(stop) => Journal {
                workers,
                script: lines.into_script(),
                entries: Items::from_vec(entries),
                stop,
            },
            None => unreachable!(),
        }
    }
}
