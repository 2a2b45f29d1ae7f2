//! The calls on mutexes and the global lock.
ghost use Rattle.std.specs.Prelude.{◌≡◌, ◌+◌, ◌<◌, ◌^◌, true, Some, None, [], IfSome};
ghost use Rattle.thr_parts.specs.Tables.{names};
ghost use Rattle.thr_parts.specs.Rows.{has_room};
ghost use Rattle.thr_parts.specs.Conditions.{waits_with};
ghost use Rattle.thr_parts.specs.Mutexes.{mutexattr_create, mutexattr_delete, setkind, init, destroy, owner};
ghost use Rattle.thr_parts.specs.Locking.{lock, trylock, unlock};
ghost use Rattle.thr_model.specs.States.{rank_of};
ghost use Rattle.thr_model.specs.Calls.{on_locks, locks_it, unlocks};
ghost use Rattle.thr_services.specs.Ready.{OwersStand};
ghost use Rattle.thr_services.specs.Answers.{Answers};

use crate::answer::{Answer, plain};
use crate::gifts::Gifts;
use crate::ready;
use crate::services::Services;
use thr_values::number::{NameId, Tid};
use thr_values::reply::Kind;

impl Services {
    /// A mutex attribute cell is made.
    pub(crate) fn mutexattr_create(&mut self, a: NameId) -> Answer
        requires known { a.0 < names }
        ensures { Answers self.old self.new result [] (λ s st. on_locks st (mutexattr_create st.locks a)) }
    {
        plain(self.locks.attr_create(a))
    }

    /// A mutex attribute cell gets a kind.
    pub(crate) fn mutexattr_setkind(&mut self, a: NameId, kind: Kind) -> Answer
        requires known { a.0 < names }
        ensures { Answers self.old self.new result [] (λ s st. on_locks st (setkind st.locks a kind)) }
    {
        plain(self.locks.setkind(a, kind))
    }

    /// A mutex attribute cell is not made any more.
    pub(crate) fn mutexattr_delete(&mut self, a: NameId) -> Answer
        requires known { a.0 < names }
        ensures { Answers self.old self.new result [] (λ s st. on_locks st (mutexattr_delete st.locks a)) }
    {
        plain(self.locks.attr_delete(a))
    }

    /// A mutex is made.
    pub(crate) fn mutex_init(&mut self, m: NameId, a: Option<NameId>) -> Answer
        requires m_known { m.0 < names }
        requires a_known { IfSome a (λ n. n.0 < names) }
        ensures { Answers self.old self.new result [] (λ s st. on_locks st (init st.locks m a)) }
    {
        plain(self.locks.init(m, a))
    }

    /// A mutex is not made any more.
    pub(crate) fn mutex_destroy(&mut self, m: NameId) -> Answer
        requires known { m.0 < names }
        ensures { Answers self.old self.new result [] (λ s st. on_locks st (destroy st.locks st.rows m (waits_with st.conds m))) }
    {
        let waits_with = self.conds.waits_with(m);
        plain(self.locks.destroy(m, waits_with, &self.rows))
    }

    /// A thread locks a mutex where a lock would reply `ok`.
    pub(crate) fn mutex_trylock(&mut self, t: Tid, m: NameId) -> Answer
        requires known { m.0 < names }
        requires depth { IfSome (owner self.old.locks (Some m)) (λ h. h.depth + 1 < 2 ^ 64) }
        ensures { Answers self.old self.new result [] (λ s st. on_locks st (trylock st.locks m t)) }
    {
        plain(self.locks.trylock(m, t))
    }

    /// A thread locks a mutex, or the global lock where the name is absent.
    pub(crate) fn lock(&mut self, t: Tid, m: Option<NameId>) -> Answer
        requires known { IfSome m (λ n. n.0 < names) }
        requires room { has_room self.old.rows t ≡ true }
        requires arrival { self.old.rows.next_arrival + 1 < 2 ^ 64 }
        requires depth { IfSome (owner self.old.locks m) (λ h. h.depth + 1 < 2 ^ 64) }
        ensures { Answers self.old self.new result [] (λ s st. locks_it st (lock st.locks st.rows m t (rank_of st t))) }
    {
        let rank = self.threads.rank(t);
        plain(self.locks.lock(m, t, rank, &mut self.rows))
    }

    /// A thread unlocks a mutex, or the global lock where the name is absent. The best that waits for it has it at once.
    pub(crate) fn unlock(&mut self, t: Tid, m: Option<NameId>, gifts: &mut Gifts) -> Answer
        requires known { IfSome m (λ n. n.0 < names) }
        requires arrival { self.old.rows.next_arrival + 1 < 2 ^ 64 }
        requires owers { OwersStand self.old.debts self.old.rows }
        requires gifts { gifts.old ≡ [] }
        ensures { Answers self.old self.new result gifts.new (λ s st. unlocks st m (unlock st.locks st.rows m t)) }
    {
        let _seats = self.rows.len();
        let _debts = self.debts.len();
        let (reply, given) = self.locks.unlock(m, t, &mut self.rows);
        ready::give(given, &self.threads, &mut self.rows, &mut self.debts);
        ready::note(given, m, gifts);
        plain(reply)
    }
}
