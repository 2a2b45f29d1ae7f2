//! Threads in rows and on processors.
ghost use Rattle.std.specs.Prelude.{◌≡◌, ◌≤◌, length, true, is_some, IfOk, IfSome};
ghost use Rattle.thr_parts.specs.Tables.{has, IsCanonical};
ghost use Rattle.thr_parts.specs.Rows.{no_rows, seat_of, best, best_of, standing, row_of, before, most};
ghost use Rattle.thr_parts.specs.Moves.{put_in_row, take_out, leave, block_in, set_rank};
ghost use Rattle.thr_parts.specs.Dispatch.{running, next_for, dispatch, gives_way, keeps};
ghost use Rattle.thr_rows.specs.Room.{HasRoom, HasRoomToWait, HasArrivalLeft};

use crate::places;
use crate::seating::Seating;
use crate::seats::{self, Entry};
use crate::slices::{self, WHOLE_SLICE};
use std::alloc::Global;
use std::marker::Model;
use thr_parts::row::{Place, RowId, Seat};
use thr_values::number::{NoMemory, Tid};

/// The threads that stand in a row or run, and the next arrival number (docs/machine.md, "Rows").
#[derive(Drop)]
pub struct Rows {
    pub(crate) seats: Seating,
    next_arrival: u64,
}

impl Model for Rows {
    ghost use Rattle.thr_parts.specs.Rows.{Rows};

    ghost Value = { Rows };

    ghost view = { λ a. record { seats = a.seats; next_arrival = a.next_arrival } };
}

impl Rows {
    /// No thread stands in a row or runs. The table has room for all threads, so that no later call takes memory.
    pub fn new(alloc: Global) -> Result<Rows, NoMemory>
        ensures { IfOk result (λ rows. rows ≡ no_rows) }
    {
        let seats = Seating::new(alloc)?;
        Ok(Rows {
            seats,
            next_arrival: 0,
        })
    }

    /// How many threads stand in a row or run. Their numbers rise from seat to seat.
    pub fn len(&self) -> usize
        ensures len { result ≡ length self.now.seats }
        ensures within { length self.now.seats ≤ most }
        ensures rises { IsCanonical self.now.seats }
    {
        self.seats.len()
    }

    // ---- where a thread stands

    /// The thread's seat, in a row or on a processor, unless it stands nowhere.
    pub fn seat(&self, t: Tid) -> Option<Seat>
        ensures seat { result ≡ seat_of self.now t }
        ensures known { is_some result ≡ has self.now.seats t.0 }
    {
        self.seats.get(t)
    }

    /// The row in which the thread stands, unless it runs or stands nowhere.
    pub fn row_of(&self, t: Tid) -> Option<RowId>
        ensures { result ≡ row_of self.now t }
    {
        match self.seat(t) {
            None => None,
            Some(seat) => match seat.place {
                Place::Runs(_, _) => None,
                Place::Stands(row, _) => Some(row),
            },
        }
    }

    /// Of two threads that stand in rows the first is before the second: it has greater rank, or equal rank and came earlier.
    pub fn before(&self, a: Tid, b: Tid) -> bool
        ensures { result ≡ before self.now a b }
    {
        match (self.seat(a), self.seat(b)) {
            (Some(a), Some(b)) => seats::is_before(a, b),
            _ => false,
        }
    }

    // ---- the best of a row

    /// The best thread of the row with its seat.
    fn best_entry(&self, row: RowId) -> Option<Entry>
        ensures best { result ≡ best_of (standing self.now row) }
        ensures known { IfSome result (λ e. has self.now.seats e.0 ≡ true) }
    {
        self.seats.best(row)
    }

    /// The best thread of the row.
    pub fn best(&self, row: RowId) -> Option<Tid>
        ensures { result ≡ best self.now row }
    {
        match self.best_entry(row) {
            None => None,
            Some(entry) => Some(Tid(entry.0)),
        }
    }

    // ---- threads that come and go

    /// The thread stands in the row from now on, with this rank and the next arrival. A thread that stood nowhere comes to
    /// stand there.
    pub fn put(&mut self, row: RowId, t: Tid, rank: u16)
        requires room { HasRoom self.old }
        requires arrival { HasArrivalLeft self.old }
        ensures { self.new ≡ put_in_row self.old row t rank }
    {
        let place = Place::Stands(row, self.next_arrival);
        self.seats.put(t, Seat { rank, place });
        self.next_arrival += 1;
    }

    /// The thread leaves its row. Where it stands in none the answer is false, and nothing changes.
    pub fn take_out(&mut self, t: Tid) -> bool
        ensures { record { rows = self.new; stood = result } ≡ take_out self.old t }
    {
        match self.row_of(t) {
            None => false,
            Some(_) => {
                self.seats.cut(t);
                true
            }
        }
    }

    /// The thread's processor becomes free. Where it runs nowhere nothing changes.
    pub fn leave(&mut self, t: Tid)
        ensures leaves { self.new ≡ leave self.old t }
        ensures room { HasRoomToWait self.old t → HasRoom self.new }
    {
        match self.seat(t) {
            None => {}
            Some(seat) => match seat.place {
                Place::Runs(_, _) => self.seats.cut(t),
                Place::Stands(_, _) => {}
            },
        }
    }

    /// The thread leaves its processor, if it runs, and stands in the row.
    pub fn block(&mut self, row: RowId, t: Tid, rank: u16)
        requires room { HasRoomToWait self.old t }
        requires arrival { HasArrivalLeft self.old }
        ensures { self.new ≡ block_in self.old row t rank }
    {
        let _rises = self.seats.len();
        let place = Place::Stands(row, self.next_arrival);
        self.seats.put(t, Seat { rank, place });
        self.next_arrival += 1;
    }

    /// The thread has this rank at its place, and keeps its arrival.
    pub fn set_rank(&mut self, t: Tid, rank: u16)
        ensures { self.new ≡ set_rank self.old t rank }
    {
        match self.seat(t) {
            None => {}
            Some(seat) => {
                let place = seat.place;
                self.seats.put(t, Seat { rank, place });
            }
        }
    }

    // ---- processors

    /// The thread that the processor has.
    pub fn running(&self, p: u32) -> Option<Tid>
        ensures { result ≡ running self.now p }
    {
        match seats::first_on(self.seats.able(), p) {
            None => None,
            Some(entry) => Some(Tid(entry.0)),
        }
    }

    /// The best ready thread, unless the processor has a thread.
    fn next_for(&self, p: u32) -> Option<Entry>
        ensures next { result ≡ next_for self.now p }
        ensures known { IfSome result (λ e. has self.now.seats e.0 ≡ true) }
    {
        match self.running(p) {
            Some(_) => None,
            None => self.best_entry(RowId::Ready),
        }
    }

    /// A processor without a thread takes the best ready one with a whole slice. None where it has a thread, or none is ready.
    pub fn dispatch(&mut self, p: u32) -> Option<Tid>
        ensures { record { rows = self.new; taken = result } ≡ dispatch self.old p }
    {
        match self.next_for(p) {
            None => None,
            Some(entry) => {
                let rank = entry.1.rank;
                let place = Place::Runs(p, WHOLE_SLICE);
                self.seats.put(Tid(entry.0), Seat { rank, place });
                Some(Tid(entry.0))
            }
        }
    }

    /// The thread of this seat gives its processor up after its turn.
    fn gives_way(&self, fifo: bool, seat: Seat) -> bool
        ensures { result ≡ gives_way self.now fifo seat.rank seat.place }
    {
        match seat.place {
            Place::Runs(_, slice) => {
                let best = self.best_entry(RowId::Ready);
                slices::yields_to(best, seat.rank, slices::is_spent(fifo, slice))
            }
            Place::Stands(_, _) => false,
        }
    }

    /// A running thread keeps its processor after a turn, or becomes ready. The answer is whether it still runs.
    pub fn keeps(&mut self, t: Tid, fifo: bool) -> bool
        requires arrival { HasArrivalLeft self.old }
        ensures { record { rows = self.new; stays = result } ≡ keeps self.old t fifo }
    {
        let _rises = self.seats.len();
        match self.seat(t) {
            None => false,
            Some(seat) => {
                if !places::is_running(seat.place) {
                    return false;
                }
                let rank = seat.rank;
                if self.gives_way(fifo, seat) {
                    let place = Place::Stands(RowId::Ready, self.next_arrival);
                    self.seats.put(t, Seat { rank, place });
                    self.next_arrival += 1;
                    return false;
                }
                let place = slices::a_turn_later(fifo, seat.place);
                self.seats.put(t, Seat { rank, place });
                places::is_running(seat.place)
            }
        }
    }
}
