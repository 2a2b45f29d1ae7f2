//! Threads that leave their waits.
ghost use Rattle.std.specs.Prelude.{◌≡◌, ◌+◌, ◌<◌, ◌^◌, ◌++◌, length, map, Some, IfSome};
ghost use Rattle.thr_parts.specs.Tables.{names};
ghost use Rattle.thr_parts.specs.Rows.{most, row_of};
ghost use Rattle.thr_parts.specs.Moves.{take_out};
ghost use Rattle.thr_parts.specs.Waking.{mutex_with, resume, gift_of};
ghost use Rattle.thr_parts.specs.Waking as waking;
ghost use Rattle.thr_parts.specs.Closing as closing;
ghost use Rattle.thr_parts.specs.Cancels.{is_point};
ghost use Rattle.thr_conds.specs.Agreement.{WaitsAgree};

use crate::gifts::Gifts;
use thr_conds::Conds;
use thr_locks::Locks;
use thr_parts::row::RowId;
use thr_pipes::Pipes;
use thr_rows::Rows;
use thr_values::number::{NameId, Tid};

/// The waits in the row that is there are points.
pub fn is_point(row: Option<RowId>) -> bool
    ensures { result ≡ is_point row }
{
    match row {
        None => false,
        Some(row) => match row {
            RowId::Cond(_) | RowId::Join(_) | RowId::Reader(_) | RowId::Writer(_) | RowId::Time =>
                true,
            RowId::Ready | RowId::Mutex(_) | RowId::Global | RowId::Once(_) => false,
        },
    }
}

/// The thread leaves its wait, whatever that is for. The answer is the mutex of a condition.
pub fn leave(t: Tid, conds: &mut Conds, pipes: &mut Pipes, rows: &mut Rows) -> Option<NameId>
    requires waits { WaitsAgree conds.old rows.old }
    ensures conds { conds.new ≡ (waking.pull_out conds.old rows.old t).conds }
    ensures pipes { pipes.new ≡ (closing.pull_out pipes.old rows.old t).pipes }
    ensures rows { rows.new ≡ (take_out rows.old t).rows }
    ensures mutex { result ≡ mutex_with conds.old t }
{
    match conds.pull_out(t, rows) {
        Some(m) => m,
        None => {
            if !pipes.pull_out(t, rows) {
                let _ = rows.take_out(t);
            }
            None
        }
    }
}

/// The thread, which has left its wait, is ready; with a mutex it gets that first or waits for it. The answer is whether it
/// has the mutex.
pub fn resume(t: Tid, m: Option<NameId>, rank: u16, locks: &mut Locks, rows: &mut Rows) -> bool
    requires known { IfSome m (λ n. n.0 < names) }
    requires room { length rows.old.seats < most }
    requires arrival { rows.old.next_arrival + 1 < 2 ^ 64 }
    ensures { record { locks = locks.new; rows = rows.new; gets = result } ≡ resume (λ _. rank) locks.old rows.old t m }
{
    match m {
        None => {
            rows.put(RowId::Ready, t, rank);
            false
        }
        Some(m) => locks.regain(m, t, rank, rows),
    }
}

/// The thread was given the mutex that is there, if it has it.
pub fn note(t: Tid, m: Option<NameId>, gets: bool, gifts: &mut Gifts)
    requires room { length gifts.old < most }
    ensures { gifts.new ≡ gifts.old ++ map (λ g. (g.0, Some g.1)) (gift_of t m gets) }
{
    match m {
        None => {}
        Some(m) => {
            if gets {
                gifts.give(t, Some(m));
            }
        }
    }
}
