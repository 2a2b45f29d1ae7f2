//! The calls on conditions and times.
ghost use Rattle.std.specs.Prelude.{◌≡◌, ◌+◌, ◌<◌, ◌^◌, true, []};
ghost use Rattle.thr_parts.specs.Tables.{names};
ghost use Rattle.thr_parts.specs.Times.{expiration};
ghost use Rattle.thr_parts.specs.Rows.{has_room};
ghost use Rattle.thr_parts.specs.Conditions.{cond_init, cond_destroy, wait, timedwait, delay};
ghost use Rattle.thr_conds.specs.Agreement.{WaitsAgree};
ghost use Rattle.thr_model.specs.States.{rank_of};
ghost use Rattle.thr_model.specs.Calls.{answers, on_conds, waits, delays, signals, notifies};
ghost use Rattle.thr_parts.specs.Waking.{signal, broadcast};
ghost use Rattle.thr_services.specs.Ready.{OwersStand};
ghost use Rattle.thr_services.specs.Cancelling.{MutexesFit};
ghost use Rattle.thr_services.specs.Answers.{Answers};

use crate::answer::{Answer, plain};
use crate::debt::Debt;
use crate::gifts::Gifts;
use crate::services::Services;
use crate::{ready, waits, waking};
use thr_values::number::{NameId, Tid};
use thr_values::reply::Reply;

/// What asking for the time replies that is so many ticks after now.
fn expiration(ticks: i64, now: i64) -> Reply
    ensures { result ≡ expiration ticks now }
{
    if ticks < 0 {
        return Reply::Einval;
    }
    match now.checked_add(ticks) {
        None => Reply::Einval,
        Some(time) => Reply::Value(time),
    }
}

impl Services {
    /// A condition is made.
    pub(crate) fn cond_init(&mut self, c: NameId) -> Answer
        requires known { c.0 < names }
        ensures { Answers self.old self.new result [] (λ s st. on_conds st (cond_init st.conds c)) }
    {
        plain(self.conds.init(c))
    }

    /// A condition is not made any more.
    pub(crate) fn cond_destroy(&mut self, c: NameId) -> Answer
        requires known { c.0 < names }
        ensures { Answers self.old self.new result [] (λ s st. on_conds st (cond_destroy st.conds c)) }
    {
        plain(self.conds.destroy(c))
    }

    /// The time that is so many ticks after now.
    pub(crate) fn get_expiration(&self, ticks: i64) -> Answer
        ensures { Answers self.now self.now result [] (λ s st. answers (expiration ticks st.clock) st) }
    {
        plain(expiration(ticks, self.clock))
    }

    /// A thread waits for so many ticks.
    pub(crate) fn delay(&mut self, t: Tid, ticks: i64) -> Answer
        requires room { has_room self.old.rows t ≡ true }
        requires arrival { self.old.rows.next_arrival + 1 < 2 ^ 64 }
        requires waits { WaitsAgree self.old.conds self.old.rows }
        ensures { Answers self.old self.new result [] (λ s st. delays st (delay st.conds st.rows ticks st.clock t (rank_of st t))) }
    {
        let rank = self.threads.rank(t);
        plain(self.conds.delay(ticks, self.clock, t, rank, &mut self.rows))
    }

    // ---- waits that begin

    /// A thread waits on a condition and gives its mutex up.
    pub(crate) fn cond_wait(&mut self, t: Tid, c: NameId, m: NameId, gifts: &mut Gifts) -> Answer
        requires c_known { c.0 < names }
        requires m_known { m.0 < names }
        requires room { has_room self.old.rows t ≡ true }
        requires arrival { self.old.rows.next_arrival + 2 < 2 ^ 64 }
        requires waits { WaitsAgree self.old.conds self.old.rows }
        requires owers { OwersStand self.old.debts self.old.rows }
        requires gifts { gifts.old ≡ [] }
        ensures { Answers self.old self.new result gifts.new (λ s st. waits st m (wait st.conds st.locks st.rows c m t (rank_of st t))) }
    {
        let _seats = self.rows.len();
        let _debts = self.debts.len();
        let rank = self.threads.rank(t);
        let (said, given) = self
            .conds
            .wait(c, m, t, rank, &mut self.locks, &mut self.rows);
        ready::give(given, &self.threads, &mut self.rows, &mut self.debts);
        ready::note(given, Some(m), gifts);
        plain(said)
    }

    /// The same until a time.
    pub(crate) fn cond_timedwait(
        &mut self,
        t: Tid,
        c: NameId,
        m: NameId,
        until: i64,
        gifts: &mut Gifts,
    ) -> Answer
        requires c_known { c.0 < names }
        requires m_known { m.0 < names }
        requires room { has_room self.old.rows t ≡ true }
        requires arrival { self.old.rows.next_arrival + 2 < 2 ^ 64 }
        requires waits { WaitsAgree self.old.conds self.old.rows }
        requires owers { OwersStand self.old.debts self.old.rows }
        requires gifts { gifts.old ≡ [] }
        ensures { Answers self.old self.new result gifts.new (λ s st. waits st m (timedwait st.conds st.locks st.rows c m until st.clock t (rank_of st t))) }
    {
        let _seats = self.rows.len();
        let _debts = self.debts.len();
        let rank = self.threads.rank(t);
        let now = self.clock;
        let (said, given) = self
            .conds
            .timedwait(c, m, until, now, t, rank, &mut self.locks, &mut self.rows);
        ready::give(given, &self.threads, &mut self.rows, &mut self.debts);
        ready::note(given, Some(m), gifts);
        plain(said)
    }

    // ---- waits that end

    /// A signal: the best waiter leaves the condition, and gets its mutex or waits for it.
    pub(crate) fn cond_signal(&mut self, c: NameId, gifts: &mut Gifts) -> Answer
        requires known { c.0 < names }
        requires arrival { self.old.rows.next_arrival + 1 < 2 ^ 64 }
        requires fit { MutexesFit self.old.conds }
        requires owers { OwersStand self.old.debts self.old.rows }
        requires gifts { gifts.old ≡ [] }
        ensures { Answers self.old self.new result gifts.new (λ s st. signals st (signal st.conds st.rows c)) }
    {
        let _seats = self.rows.len();
        let _debts = self.debts.len();
        let (said, waiter) = self.conds.signal(c, &mut self.rows);
        match waiter {
            None => plain(said),
            Some((w, m)) => {
                let rank = self.threads.rank(w);
                let gets = waits::resume(w, Some(m), rank, &mut self.locks, &mut self.rows);
                self.debts.owe(w, Debt::Return(Reply::Done));
                waits::note(w, Some(m), gets, gifts);
                plain(said)
            }
        }
    }

    /// A broadcast: every thread that waits on the condition leaves it, the best first.
    pub(crate) fn cond_broadcast(&mut self, c: NameId, gifts: &mut Gifts) -> Answer
        requires known { c.0 < names }
        requires arrival { self.old.rows.next_arrival + 1024 < 2 ^ 64 }
        requires waits { WaitsAgree self.old.conds self.old.rows }
        requires fit { MutexesFit self.old.conds }
        requires owers { OwersStand self.old.debts self.old.rows }
        requires gifts { gifts.old ≡ [] }
        ensures { Answers self.old self.new result gifts.new (λ s st. notifies st (broadcast (rank_of st) st.conds st.locks st.rows c)) }
    {
        if !self.conds.is_made(c) {
            return plain(Reply::Einval);
        }
        waking::wake_all(
            c,
            &self.threads,
            &mut self.conds,
            &mut self.locks,
            &mut self.rows,
            &mut self.debts,
            gifts,
        );
        plain(Reply::Done)
    }
}
