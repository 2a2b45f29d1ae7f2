//! Threads that become ready and owe something.
ghost use Rattle.std.specs.Prelude.{◌≡◌, ◌<◌, ◌++◌, length, IfSome};
ghost use Rattle.thr_parts.specs.Tables.{put};
ghost use Rattle.thr_parts.specs.Rows.{most};
ghost use Rattle.thr_parts.specs.Moves.{make_ready};
ghost use Rattle.thr_parts.specs.Threads.{rank_at};
ghost use Rattle.thr_model.specs.Calls.{gifts_of};
ghost use Rattle.thr_services.specs.declared.debt.Debt.TheVariants as debt;
ghost use Rattle.thr_services.specs.Ready.{rows_given, debts_given, debts_woken, CanBeReady};

use crate::debt::Debt;
use crate::debts::Debts;
use crate::gifts::Gifts;
use thr_parts::row::RowId;
use thr_rows::Rows;
use thr_threads::Threads;
use thr_values::number::{NameId, Tid};
use thr_values::reply::Reply;

/// The thread that is there is ready, and owes `ok` unless it owes something earlier.
pub fn give(given: Option<Tid>, threads: &Threads, rows: &mut Rows, debts: &mut Debts)
    requires can { IfSome given (CanBeReady rows.old debts.old) }
    ensures rows { rows.new ≡ rows_given (rank_at threads.now) rows.old given }
    ensures debts { debts.new ≡ debts_given debts.old given }
{
    match given {
        None => {}
        Some(t) => {
            rows.put(RowId::Ready, t, threads.rank(t));
            match debts.get(t) {
                None => debts.owe(t, Debt::Return(Reply::Done)),
                Some(_) => {}
            }
        }
    }
}

/// The thread that is there is ready, and owes the return of this reply.
pub fn wake(woken: Option<Tid>, reply: Reply, threads: &Threads, rows: &mut Rows, debts: &mut Debts)
    requires can { IfSome woken (CanBeReady rows.old debts.old) }
    ensures rows { rows.new ≡ rows_given (rank_at threads.now) rows.old woken }
    ensures debts { debts.new ≡ debts_woken debts.old (debt.Return reply) woken }
{
    match woken {
        None => {}
        Some(t) => {
            rows.put(RowId::Ready, t, threads.rank(t));
            debts.owe(t, Debt::Return(reply));
        }
    }
}

/// The thread that is there was given this mutex, or the global lock.
pub fn note(given: Option<Tid>, m: Option<NameId>, gifts: &mut Gifts)
    requires room { length gifts.old < most }
    ensures { gifts.new ≡ gifts.old ++ gifts_of given m }
{
    match given {
        None => {}
        Some(t) => gifts.give(t, m),
    }
}
