//! Moves of the clock.
ghost use Rattle.std.specs.Prelude.{◌≡◌, ◌+◌, ◌<◌, ◌≤◌, ◌^◌, ◌∷◌, [], ℤ, length, map, Some};
ghost use Rattle.thr_remainder.specs.Remainders.{Remainder};
ghost use Rattle.thr_parts.specs.Tables.{Table};
ghost use Rattle.thr_parts.specs.Rows.{most};
ghost use Rattle.thr_parts.specs.Threads.{rank_at};
ghost use Rattle.thr_parts.specs.Expiry.{expire_all};
ghost use Rattle.thr_conds.specs.Agreement.{WaitsAgree};
ghost use Rattle.thr_model.specs.Turns.{gift_lines};
ghost use Rattle.thr_model.specs.Events.{clock_line, clock_to};
ghost use Rattle.thr_services.specs.Views.{state_with};
ghost use Rattle.thr_services.specs.Ready.{due_as, due_all, OwersStand};
ghost use Rattle.thr_services.specs.Cancelling.{MutexesFit};

use crate::debt::Debt;
use crate::debts::Debts;
use crate::gifts::Gifts;
use crate::services::Services;
use crate::waits;
use thr_conds::Conds;
use thr_locks::Locks;
use thr_rows::Rows;
use thr_threads::Threads;
use thr_values::number::NameId;
use thr_values::reply::Reply;

/// What a thread owes whose time has come, which waits with this mutex or has a delay.
fn due_debt(m: Option<NameId>) -> Debt
    ensures { result ≡ due_as m }
{
    match m {
        None => Debt::Return(Reply::Done),
        Some(_) => Debt::Return(Reply::Eagain),
    }
}

/// Every thread whose time has come leaves its wait, the best first, owes its reply, and gets its mutex or waits for it.
fn expire_all(
    now: i64,
    threads: &Threads,
    conds: &mut Conds,
    locks: &mut Locks,
    rows: &mut Rows,
    debts: &mut Debts,
    gifts: &mut Gifts,
)
    requires waits { WaitsAgree conds.old rows.old }
    requires fit { MutexesFit conds.old }
    requires owers { OwersStand debts.old rows.old }
    requires arrival { rows.old.next_arrival + length conds.old.waits < 2 ^ 64 }
    requires few { length conds.old.waits ≤ most }
    requires gifts { gifts.old ≡ [] }
    ensures conds { conds.new ≡ (expire_all (rank_at threads.now) conds.old locks.old rows.old now).conds }
    ensures locks { locks.new ≡ (expire_all (rank_at threads.now) conds.old locks.old rows.old now).locks }
    ensures rows { rows.new ≡ (expire_all (rank_at threads.now) conds.old locks.old rows.old now).rows }
    ensures debts { debts.new ≡ due_all debts.old (expire_all (rank_at threads.now) conds.old locks.old rows.old now).woken }
    ensures gifts { gifts.new ≡ map (λ g. (g.0, Some g.1)) (expire_all (rank_at threads.now) conds.old locks.old rows.old now).gifts }
{
    'waiters: loop {
        let _seats = rows.len();
        let _debts = debts.len();
        match conds.expire(now, rows) {
            None => return,
            Some((t, m)) => {
                let rank = threads.rank(t);
                let gets = waits::resume(t, m, rank, locks, rows);
                debts.owe(t, due_debt(m));
                waits::note(t, m, gets, gifts);
            }
        }
    }
}

impl Services {
    /// The clock moves to this time, and each thread that waits for it stops waiting.
    pub fn move_clock(&mut self, now: i64, gifts: &mut Gifts)
        requires waits { WaitsAgree self.old.conds self.old.rows }
        requires fit { MutexesFit self.old.conds }
        requires owers { OwersStand self.old.debts self.old.rows }
        requires arrival { self.old.rows.next_arrival + length self.old.conds.waits < 2 ^ 64 }
        requires few { length self.old.conds.waits ≤ most }
        requires gifts { gifts.old ≡ [] }
        ensures { (remainders : Table Remainder) (shared : Table ℤ)
            → clock_to (state_with self.old remainders shared) now
            ≡ record { state = state_with self.new remainders shared; lines = clock_line now ∷ gift_lines gifts.new } }
    {
        expire_all(
            now,
            &self.threads,
            &mut self.conds,
            &mut self.locks,
            &mut self.rows,
            &mut self.debts,
            gifts,
        );
        self.clock = now;
    }
}
