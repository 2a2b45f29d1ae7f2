//! The conditions that are made, and who waits on them or for a time.
ghost use Rattle.std.specs.Prelude.{◌≡◌, true, Some, IfOk};
ghost use Rattle.thr_parts.specs.Tables.{has, put};
ghost use Rattle.thr_parts.specs.Replies.{is_blocks};
ghost use Rattle.thr_parts.specs.Rows.{best_of, number_in};
ghost use Rattle.thr_parts.specs.Moves.{block_in, take_out_if};
ghost use Rattle.thr_parts.specs.Conditions.{no_conds, cond_init, cond_destroy, is_waited_on, waits_with, waits_otherwise, wait_reply, wait, timedwait, delay};
ghost use Rattle.thr_parts.specs.Waking.{without_wait, mutex_with, signal, take_next, pull_out};
ghost use Rattle.thr_parts.specs.Expiry.{earliest, due, expire};
ghost use Rattle.thr_tables.specs.Ranges.{IsName};
ghost use Rattle.thr_rows.specs.Room.{HasRoomToWait, HasArrivalLeft};
ghost use Rattle.thr_locks.specs.Depth.{IsLockedOnceAtMost};
ghost use Rattle.thr_conds.specs.Agreement.{waiting_row, WaitsAgree};

use crate::{due, replies, waits};
use std::alloc::Global;
use std::marker::Model;
use thr_locks::Locks;
use thr_parts::row::RowId;
use thr_parts::wait::Wait;
use thr_rows::Rows;
use thr_tables::{Numbered, Slots};
use thr_values::number::{NameId, NoMemory, Tid};
use thr_values::reply::Reply;

/// How many threads can wait.
const MOST_WAITS: usize = 4096;

/// The conditions that are made, and the wait of each thread that waits on one or for a time (docs/machine.md,
/// "Conditions").
#[derive(Drop)]
pub struct Conds {
    made: Slots<()>,
    waits: Numbered<Wait, MOST_WAITS>,
}

impl Model for Conds {
    ghost use Rattle.thr_parts.specs.Conditions.{Conds};

    ghost Value = { Conds };

    ghost view = { λ a. record { made = a.made; waits = a.waits } };
}

impl Conds {
    /// No condition is made, and nobody waits. The table has room for the waits of all threads, so that no later call takes
    /// memory.
    pub fn new(alloc: Global) -> Result<Conds, NoMemory>
        ensures { IfOk result (λ conds. conds ≡ no_conds) }
    {
        let made = Slots::new(alloc)?;
        let waits = Numbered::new(alloc)?;
        Ok(Conds { made, waits })
    }

    // ---- made and not made

    /// A condition is made.
    pub fn init(&mut self, c: NameId) -> Reply
        requires known { IsName c }
        ensures { record { reply = result; conds = self.new } ≡ cond_init self.old c }
    {
        match self.made.get(c) {
            Some(()) => Reply::Ebusy,
            None => {
                self.made.put(c, ());
                Reply::Done
            }
        }
    }

    /// A condition is not made any more.
    pub fn destroy(&mut self, c: NameId) -> Reply
        requires known { IsName c }
        ensures { record { reply = result; conds = self.new } ≡ cond_destroy self.old c }
    {
        match self.made.get(c) {
            None => Reply::Einval,
            Some(()) => {
                if self.is_waited_on(c) {
                    return Reply::Ebusy;
                }
                self.made.cut(c);
                Reply::Done
            }
        }
    }

    /// The condition is made.
    pub fn is_made(&self, c: NameId) -> bool
        requires known { IsName c }
        ensures { result ≡ has self.now.made c.0 }
    {
        self.made.get(c).is_some()
    }

    // ---- who waits

    /// A thread waits on this condition.
    fn is_waited_on(&self, c: NameId) -> bool
        ensures { result ≡ is_waited_on self.now c }
    {
        waits::some_on(self.waits.entries(), c)
    }

    /// A thread waits on a condition with this mutex.
    pub fn waits_with(&self, m: NameId) -> bool
        ensures { result ≡ waits_with self.now m }
    {
        waits::some_with(self.waits.entries(), m)
    }

    /// A thread waits on this condition with another mutex.
    fn waits_otherwise(&self, c: NameId, m: NameId) -> bool
        ensures { result ≡ waits_otherwise self.now c m }
    {
        waits::some_otherwise(self.waits.entries(), c, m)
    }

    /// The mutex with which the thread waits on a condition.
    fn mutex_with(&self, t: Tid) -> Option<NameId>
        ensures { result ≡ mutex_with self.now t }
    {
        match self.waits.get(t) {
            None => None,
            Some(wait) => waits::mutex_of(wait),
        }
    }

    // ---- waits that begin

    /// The thread leaves its processor, if it runs, and begins to wait.
    fn begin(&mut self, wait: Wait, t: Tid, rank: u16, rows: &mut Rows)
        requires room { HasRoomToWait rows.old t }
        requires arrival { HasArrivalLeft rows.old }
        requires agrees { WaitsAgree self.old rows.old }
        ensures conds { self.new ≡ record { made = self.old.made; waits = put self.old.waits t.0 wait } }
        ensures rows { rows.new ≡ block_in rows.old (waiting_row wait) t rank }
    {
        let _seats = rows.len();
        let _waits = self.waits.len();
        rows.block(waits::waiting_row(wait), t, rank);
        self.waits.put(t, wait);
    }

    /// What a wait replies. Where it begins, its mutex is locked once.
    fn wait_reply(&self, c: NameId, m: NameId, t: Tid, locks: &Locks) -> Reply
        requires c_known { IsName c }
        requires m_known { IsName m }
        ensures reply { result ≡ wait_reply self.now locks.now c m t }
        ensures once { is_blocks result ≡ true → IsLockedOnceAtMost locks.now (Some m) }
    {
        if !self.is_made(c) {
            return Reply::Einval;
        }
        if !locks.is_made(m) {
            return Reply::Einval;
        }
        let held = locks.owner(Some(m));
        if !replies::is_held_by(held, t) {
            return Reply::Eperm;
        }
        if !replies::is_last(held) {
            return Reply::Einval;
        }
        if self.waits_otherwise(c, m) {
            return Reply::Einval;
        }
        Reply::Blocks
    }

    /// A thread waits on a condition and gives its mutex up. The second part of the answer is the thread that has it now.
    pub fn wait(
        &mut self,
        c: NameId,
        m: NameId,
        t: Tid,
        rank: u16,
        locks: &mut Locks,
        rows: &mut Rows,
    ) -> (Reply, Option<Tid>)
        requires c_known { IsName c }
        requires m_known { IsName m }
        requires room { HasRoomToWait rows.old t }
        requires arrival { HasArrivalLeft rows.old }
        requires agrees { WaitsAgree self.old rows.old }
        ensures { record { reply = result.0; conds = self.new; locks = locks.new; rows = rows.new; given = result.1 } ≡ wait self.old locks.old rows.old c m t rank }
    {
        let said = self.wait_reply(c, m, t, locks);
        if !replies::is_blocks(said) {
            return (said, None);
        }
        self.begin(Wait::Cond(c, m, None), t, rank, rows);
        (said, locks.give_up(Some(m), rows))
    }

    /// The same until a time. Where that isn't after now the caller keeps its mutex.
    pub fn timedwait(
        &mut self,
        c: NameId,
        m: NameId,
        until: i64,
        now: i64,
        t: Tid,
        rank: u16,
        locks: &mut Locks,
        rows: &mut Rows,
    ) -> (Reply, Option<Tid>)
        requires c_known { IsName c }
        requires m_known { IsName m }
        requires room { HasRoomToWait rows.old t }
        requires arrival { HasArrivalLeft rows.old }
        requires agrees { WaitsAgree self.old rows.old }
        ensures { record { reply = result.0; conds = self.new; locks = locks.new; rows = rows.new; given = result.1 } ≡ timedwait self.old locks.old rows.old c m until now t rank }
    {
        let said = replies::timedwait_reply(self.wait_reply(c, m, t, locks), until <= now);
        if !replies::is_blocks(said) {
            return (said, None);
        }
        self.begin(Wait::Cond(c, m, Some(until)), t, rank, rows);
        (said, locks.give_up(Some(m), rows))
    }

    /// A thread waits for so many ticks.
    pub fn delay(&mut self, ticks: i64, now: i64, t: Tid, rank: u16, rows: &mut Rows) -> Reply
        requires room { HasRoomToWait rows.old t }
        requires arrival { HasArrivalLeft rows.old }
        requires agrees { WaitsAgree self.old rows.old }
        ensures { record { reply = result; conds = self.new; rows = rows.new } ≡ delay self.old rows.old ticks now t rank }
    {
        match waits::after(ticks, now) {
            None => Reply::Einval,
            Some(until) => {
                if ticks <= 0 {
                    return Reply::Done;
                }
                self.begin(Wait::Delay(until), t, rank, rows);
                Reply::Blocks
            }
        }
    }

    // ---- waits that end

    /// The thread leaves its wait and its row.
    fn take(&mut self, t: Tid, rows: &mut Rows)
        ensures conds { self.new ≡ without_wait self.old (Some t) }
        ensures rows { rows.new ≡ take_out_if rows.old (Some t) }
    {
        self.waits.cut(t);
        let _ = rows.take_out(t);
    }

    /// A signal: the best waiter leaves the condition. With it comes its mutex.
    pub fn signal(&mut self, c: NameId, rows: &mut Rows) -> (Reply, Option<(Tid, NameId)>)
        requires known { IsName c }
        ensures { record { reply = result.0; conds = self.new; rows = rows.new; waiter = result.1 } ≡ signal self.old rows.old c }
    {
        if !self.is_made(c) {
            return (Reply::Einval, None);
        }
        (Reply::Done, self.take_next(c, rows))
    }

    /// The best waiter leaves the condition, as each does in turn at a broadcast. With it comes its mutex.
    pub fn take_next(&mut self, c: NameId, rows: &mut Rows) -> Option<(Tid, NameId)>
        ensures { record { conds = self.new; rows = rows.new; waiter = result } ≡ take_next self.old rows.old c }
    {
        match rows.best(RowId::Cond(c)) {
            None => None,
            Some(t) => match self.mutex_with(t) {
                None => None,
                Some(m) => {
                    self.take(t, rows);
                    Some((t, m))
                }
            },
        }
    }

    /// The thread leaves its wait on a condition or for a time; the answer is the mutex of a condition. Where it has no wait
    /// the answer is None, and nothing changes.
    pub fn pull_out(&mut self, t: Tid, rows: &mut Rows) -> Option<Option<NameId>>
        ensures { record { conds = self.new; rows = rows.new; left = result } ≡ pull_out self.old rows.old t }
    {
        match self.waits.get(t) {
            None => None,
            Some(wait) => {
                self.take(t, rows);
                Some(waits::mutex_of(wait))
            }
        }
    }

    // ---- waits whose time has come

    /// The earliest time for which a thread waits.
    pub fn earliest(&self) -> Option<i64>
        ensures { result ≡ earliest self.now }
    {
        waits::earliest(self.waits.entries())
    }

    /// The best thread whose time has come.
    fn next_due(&self, now: i64, rows: &Rows) -> Option<Tid>
        ensures { result ≡ number_in (best_of (due self.now rows.now now)) }
    {
        let _seats = rows.len();
        due::best_due(self.waits.entries(), now, rows)
    }

    /// The best thread whose time has come leaves its wait. With it comes the mutex of a condition.
    pub fn expire(&mut self, now: i64, rows: &mut Rows) -> Option<(Tid, Option<NameId>)>
        requires agrees { WaitsAgree self.old rows.old }
        ensures { record { conds = self.new; rows = rows.new; who = result } ≡ expire self.old rows.old now }
    {
        match self.next_due(now, rows) {
            None => None,
            Some(t) => {
                let m = self.mutex_with(t);
                self.take(t, rows);
                Some((t, m))
            }
        }
    }
}
