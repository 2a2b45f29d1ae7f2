//! Rows whose threads become ready.
ghost use Rattle.std.specs.Prelude.{◌≡◌, ◌+◌, ◌<◌, ◌≤◌, ◌^◌, false};
ghost use Rattle.thr_parts.specs.declared.row.RowId.TheVariants as rows_of;
ghost use Rattle.thr_parts.specs.Rows.{is_same_row};
ghost use Rattle.thr_parts.specs.Moves.{free_row};
ghost use Rattle.thr_parts.specs.Threads.{rank_at};
ghost use Rattle.thr_services.specs.declared.debt.Debt.TheVariants as debt;
ghost use Rattle.thr_services.specs.Ready.{debts_all, OwersStand};

use crate::debts::Debts;
use crate::ready;
use thr_parts::row::RowId;
use thr_rows::Rows;
use thr_threads::Threads;
use thr_values::reply::Reply;

/// All threads of the row become ready, the best first, and owe the return of this reply.
pub fn free_row(row: RowId, reply: Reply, threads: &Threads, rows: &mut Rows, debts: &mut Debts)
    requires apart { is_same_row row rows_of.Ready ≡ false }
    requires arrival { rows.old.next_arrival + 1024 < 2 ^ 64 }
    requires owers { OwersStand debts.old rows.old }
    ensures rows { rows.new ≡ (free_row (rank_at threads.now) rows.old row).rows }
    ensures debts { debts.new ≡ debts_all debts.old (debt.Return reply) (free_row (rank_at threads.now) rows.old row).woken }
    ensures owers { OwersStand debts.new rows.new }
    ensures arrival { rows.new.next_arrival ≤ rows.old.next_arrival + 1024 }
{
    let _most = rows.len();
    'waiters: while let Some(t) = rows.best(row) {
        let _seats = rows.len();
        let _debts = debts.len();
        let _ = rows.take_out(t);
        ready::wake(Some(t), reply, threads, rows, debts);
    }
}
