//! The best of the threads whose time has come.
ghost use Rattle.std.specs.Prelude.{◌≡◌};
ghost use Rattle.thr_parts.specs.Tables.{IsCanonical};
ghost use Rattle.thr_conds.specs.Due.{due_seat, best_due};

use crate::waits::{self, is_due};
use thr_parts::row::Seat;
use thr_rows::{Entry, Rows, better};
use thr_values::number::Tid;

/// The seat of the thread of a wait whose time has come.
fn due_seat(wait: waits::Entry, now: i64, rows: &Rows) -> Option<Seat>
    ensures { result ≡ due_seat rows.now now wait }
{
    if !is_due(wait.1, now) {
        return None;
    }
    rows.seat(Tid(wait.0))
}

/// The best thread whose time has come, whatever row it stands in. The best so far is carried with its seat, so that each
/// wait and its seat are looked at once.
pub fn best_due(waits: &[waits::Entry], now: i64, rows: &Rows) -> Option<Tid>
    requires waits_rise { IsCanonical waits.now }
    requires seats_rise { IsCanonical rows.now.seats }
    ensures { result ≡ best_due waits.now rows.now now }
{
    let mut found: Option<Entry> = None;
    let mut i = waits.len();
    while i > 0 {
        i -= 1;
        if let Some(seat) = due_seat(waits[i], now, rows) {
            found = Some(better((waits[i].0, seat), found));
        }
    }
    match found {
        None => None,
        Some(entry) => Some(Tid(entry.0)),
    }
}
