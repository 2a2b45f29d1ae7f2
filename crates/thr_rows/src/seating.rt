//! The seats of threads by their numbers.
ghost use Rattle.std.specs.Prelude.{◌≡◌, ◌+◌, ◌≤◌, length, true, is_some, IfOk, IfSome};
ghost use Rattle.std.specs.List.{filter};
ghost use Rattle.thr_parts.specs.Tables.{none, get, has, put, cut, IsCanonical};
ghost use Rattle.thr_parts.specs.Rows.{place_in, best_of, most};
ghost use Rattle.thr_tables.specs.Places.{has_place};
ghost use Rattle.thr_rows.specs.Able.{able_of};
ghost use Rattle.thr_rows.specs.Waits.{is_waiting};

use crate::places::{can_run, is_ready};
use crate::remembered::Remembered;
use crate::seats::{self, Entry};
use crate::waits::Waits;
use std::alloc::Global;
use std::marker::Model;
use thr_parts::row::{RowId, Seat};
use thr_tables::Numbered;
use thr_values::number::{NoMemory, Tid};

/// How many threads can stand in rows or run.
const MOST: usize = 1024;

/// The seats of threads, which contracts see as the table of them. The seats of those that are ready or run stand in a table of
/// their own too, so that none of the many that may wait is looked at where it is asked who runs or can run. The others stand
/// in a queue, so that few of them are looked at where it is asked which is the best of a row.
#[derive(Drop)]
pub struct Seating {
    all: Remembered,
    able: Numbered<Seat, MOST>,
    waits: Waits,
}

/// The thread waits no more, whose seat is this.
fn leave_wait(waits: &mut Waits, seat: Option<Seat>, t: Tid)
    requires known { has waits.old t.0 ≡ is_waiting seat }
    requires rises { IsCanonical waits.old }
    ensures { waits.new ≡ cut waits.old t.0 }
{
    match seat {
        None => {}
        Some(seat) => {
            if !can_run(seat.place) {
                waits.cut(t);
            }
        }
    }
}

impl Model for Seating {
    ghost use Rattle.std.specs.Prelude.{◌≡◌};
    ghost use Rattle.thr_parts.specs.declared.row.Seat.{Seat};
    ghost use Rattle.thr_parts.specs.Tables.{Table};
    ghost use Rattle.thr_rows.specs.Able.{able_of};
    ghost use Rattle.thr_rows.specs.Waits.{waiting_of};

    ghost Value = { Table Seat };

    ghost view = { λ a. a.all };

    ghost invariant = { λ a. (a.able ≡ able_of a.all) × (a.waits ≡ waiting_of a.all) };
}

impl Seating {
    /// No thread has a seat. There is room for all.
    pub fn new(alloc: Global) -> Result<Seating, NoMemory>
        ensures { IfOk result (λ seats. seats ≡ none) }
    {
        let all = Remembered::new(alloc)?;
        let able = Numbered::new(alloc)?;
        let waits = Waits::new(alloc)?;
        Ok(Seating { all, able, waits })
    }

    /// How many threads have a seat. Their numbers rise.
    pub fn len(&self) -> usize
        ensures len { result ≡ length self.now }
        ensures within { length self.now ≤ most }
        ensures rises { IsCanonical self.now }
    {
        self.all.len()
    }

    /// The seats of those that are ready or run, in the order of their numbers.
    pub fn able(&self) -> &[Entry]
        ensures entries { result.now ≡ able_of self.now }
        ensures rises { IsCanonical result.now }
    {
        self.able.entries()
    }

    /// The best of those that stand in the row.
    pub fn best(&self, row: RowId) -> Option<Entry>
        ensures best { result ≡ best_of (filter (λ e. place_in row e.1.place) self.now) }
        ensures known { IfSome result (λ e. has self.now e.0 ≡ true) }
    {
        let _rises = self.all.len();
        if is_ready(row) {
            return seats::best_in(self.able.entries(), row);
        }
        self.waits.best(row)
    }

    /// The thread's seat.
    pub fn get(&self, t: Tid) -> Option<Seat>
        ensures value { result ≡ get self.now t.0 }
        ensures known { is_some result ≡ has self.now t.0 }
    {
        self.all.get(t)
    }

    /// The thread has this seat from now on.
    pub fn put(&mut self, t: Tid, seat: Seat)
        requires room { has_place self.old t.0 most ≡ true }
        ensures { self.new ≡ put self.old t.0 seat }
    {
        let _rises = self.all.len();
        let old = self.all.put(t, seat);
        leave_wait(&mut self.waits, old, t);
        if can_run(seat.place) {
            self.able.put(t, seat);
            return;
        }
        self.able.cut(t);
        self.waits.add(t, seat);
    }

    /// The thread has no seat from now on.
    pub fn cut(&mut self, t: Tid)
        ensures value { self.new ≡ cut self.old t.0 }
        ensures one_fewer { has self.old t.0 ≡ true → length self.new + 1 ≡ length self.old }
        ensures within { length self.old ≤ most }
    {
        let _rises = self.all.len();
        let old = self.all.cut(t);
        leave_wait(&mut self.waits, old, t);
        self.able.cut(t);
    }
}
