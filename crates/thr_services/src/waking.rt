//! Conditions whose waiters all leave.
ghost use Rattle.std.specs.Prelude.{◌≡◌, ◌+◌, ◌<◌, ◌^◌, [], map, Some};
ghost use Rattle.thr_values.specs.declared.reply.Reply.TheVariants as reply;
ghost use Rattle.thr_parts.specs.declared.row.RowId.TheVariants as row;
ghost use Rattle.thr_parts.specs.Rows.{best_first};
ghost use Rattle.thr_parts.specs.Threads.{rank_at};
ghost use Rattle.thr_parts.specs.Waking.{wake_all};
ghost use Rattle.thr_conds.specs.Agreement.{WaitsAgree};
ghost use Rattle.thr_services.specs.declared.debt.Debt.TheVariants as debt;
ghost use Rattle.thr_services.specs.Ready.{debts_all, OwersStand};
ghost use Rattle.thr_services.specs.Cancelling.{MutexesFit};

use crate::debt::Debt;
use crate::debts::Debts;
use crate::gifts::Gifts;
use crate::waits;
use thr_conds::Conds;
use thr_locks::Locks;
use thr_rows::Rows;
use thr_threads::Threads;
use thr_values::number::NameId;
use thr_values::reply::Reply;

/// Every thread that waits on the condition leaves it, the best first, owes `ok`, and gets its mutex or waits for it.
pub fn wake_all(
    c: NameId,
    threads: &Threads,
    conds: &mut Conds,
    locks: &mut Locks,
    rows: &mut Rows,
    debts: &mut Debts,
    gifts: &mut Gifts,
)
    requires waits { WaitsAgree conds.old rows.old }
    requires fit { MutexesFit conds.old }
    requires owers { OwersStand debts.old rows.old }
    requires arrival { rows.old.next_arrival + 1024 < 2 ^ 64 }
    requires gifts { gifts.old ≡ [] }
    ensures conds { conds.new ≡ (wake_all (rank_at threads.now) conds.old locks.old rows.old (best_first rows.old (row.Cond c))).conds }
    ensures locks { locks.new ≡ (wake_all (rank_at threads.now) conds.old locks.old rows.old (best_first rows.old (row.Cond c))).locks }
    ensures rows { rows.new ≡ (wake_all (rank_at threads.now) conds.old locks.old rows.old (best_first rows.old (row.Cond c))).rows }
    ensures debts { debts.new ≡ debts_all debts.old (debt.Return reply.Done) (map (λ w. w.0) (wake_all (rank_at threads.now) conds.old locks.old rows.old (best_first rows.old (row.Cond c))).woken) }
    ensures gifts { gifts.new ≡ map (λ g. (g.0, Some g.1)) (wake_all (rank_at threads.now) conds.old locks.old rows.old (best_first rows.old (row.Cond c))).gifts }
{
    let _most = rows.len();
    'waiters: loop {
        let _seats = rows.len();
        let _debts = debts.len();
        match conds.take_next(c, rows) {
            None => return,
            Some((t, m)) => {
                let rank = threads.rank(t);
                let gets = waits::resume(t, Some(m), rank, locks, rows);
                debts.owe(t, Debt::Return(Reply::Done));
                waits::note(t, Some(m), gets, gifts);
            }
        }
    }
}
