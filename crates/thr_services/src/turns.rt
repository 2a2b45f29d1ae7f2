//! What turns and processors do beside calls.
ghost use Rattle.std.specs.Prelude.{◌≡◌, ◌+◌, ◌<◌, ◌^◌, ℤ, IfNone};
ghost use Rattle.std.specs.Option.{option_map};
ghost use Rattle.thr_values.specs.declared.reply.Reply.TheVariants as reply;
ghost use Rattle.thr_remainder.specs.Remainders.{Remainder};
ghost use Rattle.thr_parts.specs.declared.row.RowId.TheVariants as row;
ghost use Rattle.thr_parts.specs.Tables.{Table, names, cut};
ghost use Rattle.thr_parts.specs.Moves.{free_row};
ghost use Rattle.thr_parts.specs.Dispatch.{dispatch, keeps};
ghost use Rattle.thr_parts.specs.Threads.{record_at};
ghost use Rattle.thr_parts.specs.Cancels.{deliver};
ghost use Rattle.thr_parts.specs.Keys.{next_destructor};
ghost use Rattle.thr_parts.specs.OnceBlocks.{done, undone};
ghost use Rattle.thr_parts.specs.Expiry.{earliest};
ghost use Rattle.thr_model.specs.States.{debt_of, rank_of};
ghost use Rattle.thr_model.specs.Turns.{is_fifo, is_fifo_in, freed, thread_ended, handed_on};
ghost use Rattle.thr_services.specs.Views.{as_owed, state_with};
ghost use Rattle.thr_services.specs.Ready.{OwersStand};

use crate::debt::Debt;
use crate::freeing::free_row;
use crate::services::Services;
use thr_parts::row::RowId;
use thr_values::number::{NameId, Tid};
use thr_values::reply::Reply;
use thr_values::scheduling::Policy;

/// The policy is SCHED_FIFO.
fn is_fifo(policy: Policy) -> bool
    ensures { result ≡ is_fifo policy }
{
    match policy {
        Policy::Fifo => true,
        _ => false,
    }
}

impl Services {
    // ---- what a thread owes

    /// What the thread owes, which it owes no longer. The room for values of keys is as before.
    pub fn take_debt(&mut self, t: Tid) -> Option<Debt>
        ensures debt { (remainders : Table Remainder) (shared : Table ℤ)
            → debt_of (state_with self.old remainders shared) t ≡ option_map as_owed result }
        ensures state { (remainders : Table Remainder) (shared : Table ℤ)
            → (record (state_with self.old remainders shared) { debts = cut (state_with self.old remainders shared).debts t.0 })
            ≡ state_with self.new remainders shared }
        ensures room { self.new.onces.room ≡ self.old.onces.room }
    {
        let debt = self.debts.get(t);
        self.debts.clear(t);
        debt
    }

    /// The thread's cancel is delivered.
    pub fn deliver(&mut self, t: Tid)
        ensures { (remainders : Table Remainder) (shared : Table ℤ)
            → (record (state_with self.old remainders shared) { threads = deliver self.old.threads t })
            ≡ state_with self.new remainders shared }
    {
        self.threads.deliver(t);
    }

    // ---- once blocks and keys

    /// A once block is done, and those that wait for it owe `ok`.
    pub fn complete(&mut self, o: NameId)
        requires known { o.0 < names }
        requires arrival { self.old.rows.next_arrival + 1024 < 2 ^ 64 }
        requires owers { OwersStand self.old.debts self.old.rows }
        ensures { (remainders : Table Remainder) (shared : Table ℤ)
            → freed (record (state_with self.old remainders shared) { onces = done self.old.onces.state o }) reply.Done (free_row (rank_of (state_with self.old remainders shared)) self.old.rows (row.Once o))
            ≡ state_with self.new remainders shared }
    {
        self.onces.done(o);
        free_row(
            RowId::Once(o),
            Reply::Done,
            &self.threads,
            &mut self.rows,
            &mut self.debts,
        );
    }

    /// A once block is undone: the best that waits for it is ready, holds it and owes its running.
    pub fn undo(&mut self, o: NameId)
        requires known { o.0 < names }
        requires arrival { self.old.rows.next_arrival + 1 < 2 ^ 64 }
        requires owers { OwersStand self.old.debts self.old.rows }
        ensures { (remainders : Table Remainder) (shared : Table ℤ)
            → handed_on (state_with self.old remainders shared) (undone self.old.onces.state self.old.rows o) (undone self.old.onces.state self.old.rows o).runner
            ≡ state_with self.new remainders shared }
    {
        let _seats = self.rows.len();
        let _debts = self.debts.len();
        let runner = self.onces.undone(o, &mut self.rows);
        match runner {
            None => {}
            Some(t) => {
                self.rows.put(RowId::Ready, t, self.threads.rank(t));
                self.debts.owe(t, Debt::Running);
            }
        }
    }

    /// The destructor that an ending thread calls next, as key, routine and value; the thread's value of the key becomes 0.
    pub fn next_destructor(&mut self, t: Tid) -> Option<(NameId, NameId, i64)>
        ensures call { result ≡ (next_destructor self.old.onces.state t).call }
        ensures state { (remainders : Table Remainder) (shared : Table ℤ)
            → (record (state_with self.old remainders shared) { onces = (next_destructor self.old.onces.state t).onces })
            ≡ state_with self.new remainders shared }
    {
        self.onces.next_destructor(t)
    }

    // ---- ends

    /// The thread ends with the value, and those that wait for its end owe it. What is left to do in it is gone.
    pub fn end(&mut self, t: Tid, value: i64)
        requires arrival { self.old.rows.next_arrival + 1024 < 2 ^ 64 }
        requires owers { OwersStand self.old.debts self.old.rows }
        ensures { (remainders : Table Remainder) (shared : Table ℤ)
            → thread_ended (state_with self.old remainders shared) t value (free_row (rank_of (state_with self.old remainders shared)) self.old.rows (row.Join t))
            ≡ state_with self.new (cut remainders t.0) shared }
    {
        free_row(
            RowId::Join(t),
            Reply::Value(value),
            &self.threads,
            &mut self.rows,
            &mut self.debts,
        );
        self.rows.leave(t);
        self.threads.set_ended(t, value);
    }

    // ---- processors

    /// A processor without a thread takes the best ready one. None where it has a thread, or none is ready.
    pub fn dispatch(&mut self, p: u32) -> Option<Tid>
        ensures taken { result ≡ (dispatch self.old.rows p).taken }
        ensures state { (remainders : Table Remainder) (shared : Table ℤ)
            → (record (state_with self.old remainders shared) { rows = (dispatch self.old.rows p).rows })
            ≡ state_with self.new remainders shared }
        ensures none { IfNone result (self.new ≡ self.old) }
    {
        self.rows.dispatch(p)
    }

    /// After its turn the thread keeps its processor or gives it up.
    pub fn keep(&mut self, t: Tid)
        requires arrival { self.old.rows.next_arrival + 1 < 2 ^ 64 }
        ensures { (remainders : Table Remainder) (shared : Table ℤ)
            → (record (state_with self.old remainders shared) { rows = (keeps self.old.rows t (is_fifo_in (record_at self.old.threads t))).rows })
            ≡ state_with self.new remainders shared }
    {
        let fifo = match self.threads.get(i64::from(t.0)) {
            None => false,
            Some(th) => is_fifo(th.policy),
        };
        let _ = self.rows.keeps(t, fifo);
    }

    // ---- the clock

    /// The earliest time for which a thread waits.
    pub fn earliest(&self) -> Option<i64>
        ensures { result ≡ earliest self.now.conds }
    {
        self.conds.earliest()
    }
}
