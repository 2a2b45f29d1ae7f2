//! The threads that wait, in the order in which they leave their rows.
ghost use Rattle.std.specs.Prelude.{ℕ, ◌≡◌, ◌<◌, ◌≤◌, ◌+◌, ◌-◌, length, drop, get_or, true, false, IfOk};
ghost use Rattle.std.specs.List.{filter, insert, remove};
ghost use Rattle.thr_parts.specs.declared.row.Seat.{Seat};
ghost use Rattle.thr_parts.specs.Tables.{none, has, put, cut};
ghost use Rattle.thr_parts.specs.Rows.{place_in, best_of, most};
ghost use Rattle.thr_parts.specs.Dispatch.{first};
ghost use Rattle.thr_rows.specs.Waits.{leaves_first, leads, is_queue, table_of, spot};

use crate::places::is_in;
use crate::seats::{self, Entry};
use std::alloc::Global;
use std::collections::VecDeque;
use std::marker::Model;
use thr_parts::row::{RowId, Seat};
use thr_values::number::{NoMemory, Tid};

/// How many threads can wait.
const MOST: usize = 1024;

/// The seats of the threads that wait, which contracts see as the table of them. They stand in one queue, each behind those that
/// leave before it, so that the best of a row is the first of it, and a thread that leaves first or comes last moves no other.
#[derive(Drop)]
pub struct Waits {
    queue: VecDeque<Entry>,
}

impl Model for Waits {
    ghost use Rattle.std.specs.Prelude.{◌≡◌, ◌≤◌, length, true};
    ghost use Rattle.std.specs.VecDeque.{deque_capacity};
    ghost use Rattle.thr_parts.specs.declared.row.Seat.{Seat};
    ghost use Rattle.thr_parts.specs.Tables.{Table};
    ghost use Rattle.thr_parts.specs.Rows.{most};
    ghost use Rattle.thr_rows.specs.Waits.{is_queue, table_of};

    ghost Value = { Table Seat };

    ghost view = { λ a. table_of a.queue.items };

    ghost invariant = { λ a. (is_queue a.queue.items ≡ true) × (most ≤ deque_capacity a.queue) };
}

/// The one is before the other, or neither is and it has the greater number.
fn leaves_first(a: Entry, b: Entry) -> bool
    ensures { result ≡ leaves_first a b }
{
    if seats::is_before(a.1, b.1) {
        return true;
    }
    if seats::is_before(b.1, a.1) {
        return false;
    }
    b.0 < a.0
}

/// The place of the thread, which is past the end where it isn't there.
fn place_of(queue: &VecDeque<Entry>, t: u32) -> usize
    ensures { result ≡ spot t queue.now.items }
{
    let mut i = 0;
    while i < queue.len() {
        if queue[i].0 == t {
            return i;
        }
        i += 1;
    }
    i
}

/// The place behind all that don't leave after the thread.
fn place_for(queue: &VecDeque<Entry>, entry: Entry) -> usize
    ensures within { result ≤ length queue.now.items }
    ensures after { leads entry (drop result queue.now.items) ≡ true }
    ensures before { (d : ℕ × Seat) → 0 < result → leaves_first entry (get_or queue.now.items (result - 1) d) ≡ false }
{
    let mut i = queue.len();
    while i > 0 {
        if !leaves_first(entry, queue[i - 1]) {
            return i;
        }
        i -= 1;
    }
    0
}

/// The first of those that stand in the row.
fn first_in(queue: &VecDeque<Entry>, row: RowId) -> Option<Entry>
    ensures { result ≡ first (filter (λ e. place_in row e.1.place) queue.now.items) }
{
    let mut i = 0;
    while i < queue.len() {
        if is_in(row, queue[i].1.place) {
            return Some(queue[i]);
        }
        i += 1;
    }
    None
}

impl Waits {
    /// No thread waits. There is room for all.
    pub fn new(alloc: Global) -> Result<Waits, NoMemory>
        ensures { IfOk result (λ waits. waits ≡ none) }
    {
        let queue = match VecDeque::with_capacity(alloc, MOST) {
            Ok(queue) => queue,
            Err(_) => return Err(NoMemory),
        };
        Ok(Waits { queue })
    }

    /// The best of those that stand in the row.
    pub fn best(&self, row: RowId) -> Option<Entry>
        ensures { result ≡ best_of (filter (λ e. place_in row e.1.place) self.now) }
    {
        first_in(&self.queue, row)
    }

    /// The thread waits no more.
    pub fn cut(&mut self, t: Tid)
        ensures { self.new ≡ cut self.old t.0 }
    {
        let place = place_of(&self.queue, t.0);
        let _ = self.queue.remove(place);
    }

    /// The thread waits from now on.
    pub fn add(&mut self, t: Tid, seat: Seat)
        requires fresh { has self.old t.0 ≡ false }
        requires room { length self.old < most }
        ensures { self.new ≡ put self.old t.0 seat }
    {
        let entry = (t.0, seat);
        let place = place_for(&self.queue, entry);
        let _ = self.queue.insert(place, entry);
    }
}
