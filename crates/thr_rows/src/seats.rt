//! The seats of threads in the order of their numbers: the best of a row, and the thread of a processor.
ghost use Rattle.std.specs.Prelude.{◌≡◌, true, IfSome};
ghost use Rattle.std.specs.List.{filter};
ghost use Rattle.thr_parts.specs.Tables.{has, IsCanonical};
ghost use Rattle.thr_parts.specs.Rows.{place_in, is_before, better, best_of};
ghost use Rattle.thr_parts.specs.Dispatch.{runs_on, first};

use crate::places::{arrival, is_in, is_on};
use thr_parts::row::{RowId, Seat};

/// A thread's number and its seat.
pub type Entry = (u32, Seat);

/// The one has greater rank, or equal rank and lesser arrival.
pub fn is_before(a: Seat, b: Seat) -> bool
    ensures { result ≡ is_before a b }
{
    if b.rank < a.rank {
        return true;
    }
    if a.rank != b.rank {
        return false;
    }
    arrival(a.place) < arrival(b.place)
}

/// The better of a thread and another that may be there, as `Rows::before` says it of two.
pub fn better(entry: Entry, found: Option<Entry>) -> Entry
    ensures { result ≡ better entry found }
{
    match found {
        None => entry,
        Some(other) => {
            if is_before(entry.1, other.1) {
                entry
            } else {
                other
            }
        }
    }
}

/// The best of those that stand in the row. The search keeps the place of the best so far, and copies its seat once.
pub fn best_in(seats: &[Entry], row: RowId) -> Option<Entry>
    ensures best { result ≡ best_of (filter (λ e. place_in row e.1.place) seats.now) }
    ensures known { IsCanonical seats.now → IfSome result (λ e. has seats.now e.0 ≡ true) }
{
    let mut best = seats.len();
    let mut i = seats.len();
    while i > 0 {
        i -= 1;
        if is_in(row, seats[i].1.place) {
            if best == seats.len() || is_before(seats[i].1, seats[best].1) {
                best = i;
            }
        }
    }
    if best < seats.len() {
        Some(seats[best])
    } else {
        None
    }
}

/// The first of those that run on the processor.
pub fn first_on(seats: &[Entry], p: u32) -> Option<Entry>
    ensures { result ≡ first (filter (λ e. runs_on p e.1.place) seats.now) }
{
    let mut i = 0;
    while i < seats.len() {
        if is_on(p, seats[i].1.place) {
            return Some(seats[i]);
        }
        i += 1;
    }
    None
}
