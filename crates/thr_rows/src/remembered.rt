//! The seats of threads by their numbers, where a thread that left keeps its entry.
ghost use Rattle.std.specs.Prelude.{◌≡◌, ◌+◌, ◌<◌, ◌≤◌, length, true, is_some, IfOk};
ghost use Rattle.thr_parts.specs.declared.row.Seat.{Seat};
ghost use Rattle.thr_parts.specs.Tables.{none, get, has, put, cut, IsCanonical};
ghost use Rattle.thr_parts.specs.Rows.{most};
ghost use Rattle.thr_tables.specs.Places.{has_place};
ghost use Rattle.thr_rows.specs.Remembered.{joined, seated};

use std::alloc::Global;
use std::marker::Model;
use thr_parts::row::Seat;
use thr_tables::Numbered;
use thr_values::number::{NoMemory, Tid};

/// How many entries there are at most: twice as many as threads can have seats.
const ENTRIES: usize = 2048;

/// The seats of threads, which contracts see as the table of them. A thread that leaves keeps its entry without a seat until
/// the table is full, so that one that comes back moves no other.
#[derive(Drop)]
pub struct Remembered {
    entries: Numbered<Option<Seat>, ENTRIES>,
    count: usize,
}

impl Model for Remembered {
    ghost use Rattle.std.specs.Prelude.{◌≡◌, ◌≤◌, length};
    ghost use Rattle.thr_parts.specs.declared.row.Seat.{Seat};
    ghost use Rattle.thr_parts.specs.Tables.{Table};
    ghost use Rattle.thr_parts.specs.Rows.{most};
    ghost use Rattle.thr_rows.specs.Remembered.{seated};

    ghost Value = { Table Seat };

    ghost view = { λ a. seated a.entries };

    ghost invariant = { λ a. (a.count ≡ length (seated a.entries)) × (a.count ≤ most) };
}

/// The thread's seat.
fn find(entries: &Numbered<Option<Seat>, ENTRIES>, t: Tid) -> Option<Seat>
    ensures value { result ≡ get (seated entries.now) t.0 }
    ensures known { is_some result ≡ has (seated entries.now) t.0 }
    ensures entry { is_some result ≡ true → has entries.now t.0 ≡ true }
    ensures rises { IsCanonical (seated entries.now) }
{
    let _rises = entries.len();
    match entries.get(t) {
        None => None,
        Some(seat) => seat,
    }
}

/// There is place for one entry more, where threads that left lose theirs if need be.
fn make_place(entries: &mut Numbered<Option<Seat>, ENTRIES>)
    requires within { length (seated entries.old) ≤ most }
    ensures seats { seated entries.new ≡ seated entries.old }
    ensures place { length entries.new < 2048 }
{
    if entries.len() < ENTRIES {
        return;
    }
    entries.retain(|e| e.1.is_some());
}

/// The thread has this seat from now on.
fn store(entries: &mut Numbered<Option<Seat>, ENTRIES>, t: Tid, seat: Seat)
    requires within { length (seated entries.old) ≤ most }
    ensures { seated entries.new ≡ put (seated entries.old) t.0 seat }
{
    make_place(entries);
    let _rises = entries.len();
    entries.put(t, Some(seat));
}

/// The thread has no seat from now on, and keeps its entry.
fn empty(entries: &mut Numbered<Option<Seat>, ENTRIES>, t: Tid)
    requires known { has entries.old t.0 ≡ true }
    ensures { seated entries.new ≡ cut (seated entries.old) t.0 }
{
    let _rises = entries.len();
    entries.put(t, None);
}

impl Remembered {
    /// No thread has a seat. There is room for all.
    pub fn new(alloc: Global) -> Result<Remembered, NoMemory>
        ensures { IfOk result (λ seats. seats ≡ none) }
    {
        let entries = Numbered::new(alloc)?;
        Ok(Remembered { entries, count: 0 })
    }

    /// How many threads have a seat. Their numbers rise.
    pub fn len(&self) -> usize
        ensures len { result ≡ length self.now }
        ensures within { length self.now ≤ most }
        ensures rises { IsCanonical self.now }
    {
        self.count
    }

    /// The thread's seat.
    pub fn get(&self, t: Tid) -> Option<Seat>
        ensures value { result ≡ get self.now t.0 }
        ensures known { is_some result ≡ has self.now t.0 }
    {
        find(&self.entries, t)
    }

    /// The thread has this seat from now on. The answer is the one that it had.
    pub fn put(&mut self, t: Tid, seat: Seat) -> Option<Seat>
        requires room { has_place self.old t.0 most ≡ true }
        ensures value { self.new ≡ put self.old t.0 seat }
        ensures had { result ≡ get self.old t.0 }
    {
        let old = find(&self.entries, t);
        store(&mut self.entries, t, seat);
        if old.is_some() {
            return old;
        }
        self.count += 1;
        old
    }

    /// The thread has no seat from now on. The answer is the one that it had.
    pub fn cut(&mut self, t: Tid) -> Option<Seat>
        ensures value { self.new ≡ cut self.old t.0 }
        ensures had { result ≡ get self.old t.0 }
        ensures one_fewer { has self.old t.0 ≡ true → length self.new + 1 ≡ length self.old }
        ensures within { length self.old ≤ most }
    {
        match find(&self.entries, t) {
            None => None,
            Some(seat) => {
                empty(&mut self.entries, t);
                self.count -= 1;
                Some(seat)
            }
        }
    }
}
