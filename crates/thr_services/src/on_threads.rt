//! The calls on threads and on their attribute cells.
ghost use Rattle.std.specs.Prelude.{◌≡◌, ◌+◌, ◌<◌, ◌^◌, true, [], None, IfSome};
ghost use Rattle.thr_values.specs.declared.reply.Reply.TheVariants as reply;
ghost use Rattle.thr_parts.specs.declared.row.RowId.TheVariants as row;
ghost use Rattle.thr_parts.specs.Tables.{names};
ghost use Rattle.thr_parts.specs.Rows.{has_room};
ghost use Rattle.thr_parts.specs.Moves.{block_in};
ghost use Rattle.thr_parts.specs.Threads.{natural, record_of, create, join, detach};
ghost use Rattle.thr_parts.specs.Scheduling.{getprio, getscheduler, setprio, setscheduler, attr_create, attr_delete, attr_setsched, attr_setprio, attr_setinherit, attr_setstack};
ghost use Rattle.thr_parts.specs.Cancels.{setcancel, setasynccancel};
ghost use Rattle.thr_model.specs.States.{rank_of};
ghost use Rattle.thr_model.specs.Calls.{answers, on_threads, creates, joins, ranks, cancels_thread};
ghost use Rattle.thr_parts.specs.Replies.{is_value};
ghost use Rattle.thr_services.specs.Cancelling.{reranked, SeatsHaveRecords, MutexesFit};
ghost use Rattle.thr_conds.specs.Agreement.{WaitsAgree};
ghost use Rattle.thr_services.specs.Ready.{OwersStand};
ghost use Rattle.thr_services.specs.Answers.{Answers};

use crate::answer::{Answer, plain};
use crate::debt::Debt;
use crate::gifts::Gifts;
use crate::services::Services;
use crate::{replies, waits};
use thr_parts::row::RowId;
use thr_rows::Rows;
use thr_threads::Threads;
use thr_values::number::{NameId, Tid};
use thr_values::reply::Reply;
use thr_values::scheduling::Policy;

/// The thread that the number names.
fn named(threads: &Threads, target: i64) -> Option<Tid>
    ensures number { IfSome result (λ t. t.0 ≡ natural target) }
    ensures unknown { result ≡ None → record_of threads.now target ≡ None }
{
    match threads.get(target) {
        None => None,
        Some(th) => Some(th.tid),
    }
}

/// The thread that is there has its new rank where the reply is a number, which says that it was changed.
fn rerank(who: Option<Tid>, said: Reply, threads: &Threads, rows: &mut Rows)
    ensures { rows.new ≡ reranked who (is_value said) threads.now rows.old }
{
    match who {
        None => {}
        Some(t) => {
            if replies::is_value(said) {
                rows.set_rank(t, threads.rank(t));
            }
        }
    }
}

impl Services {
    // ---- attribute cells

    /// An attribute cell is made.
    pub(crate) fn attr_create(&mut self, a: NameId) -> Answer
        requires known { a.0 < names }
        ensures { Answers self.old self.new result [] (λ s st. on_threads st (attr_create st.threads a)) }
    {
        plain(self.threads.attr_create(a))
    }

    /// An attribute cell is not made any more.
    pub(crate) fn attr_delete(&mut self, a: NameId) -> Answer
        requires known { a.0 < names }
        ensures { Answers self.old self.new result [] (λ s st. on_threads st (attr_delete st.threads a)) }
    {
        plain(self.threads.attr_delete(a))
    }

    /// An attribute cell gets a policy.
    pub(crate) fn attr_setsched(&mut self, a: NameId, policy: Policy) -> Answer
        requires known { a.0 < names }
        ensures { Answers self.old self.new result [] (λ s st. on_threads st (attr_setsched st.threads a policy)) }
    {
        plain(self.threads.attr_setsched(a, policy))
    }

    /// An attribute cell gets a priority.
    pub(crate) fn attr_setprio(&mut self, a: NameId, prio: i64) -> Answer
        requires known { a.0 < names }
        ensures { Answers self.old self.new result [] (λ s st. on_threads st (attr_setprio st.threads a prio)) }
    {
        plain(self.threads.attr_setprio(a, prio))
    }

    /// An attribute cell says whether a thread has its maker's policy and priority.
    pub(crate) fn attr_setinherit(&mut self, a: NameId, inherits: bool) -> Answer
        requires known { a.0 < names }
        ensures { Answers self.old self.new result [] (λ s st. on_threads st (attr_setinherit st.threads a inherits)) }
    {
        plain(self.threads.attr_setinherit(a, inherits))
    }

    /// An attribute cell gets a stack size.
    pub(crate) fn attr_setstack(&mut self, a: NameId, frames: i64) -> Answer
        requires known { a.0 < names }
        ensures { Answers self.old self.new result [] (λ s st. on_threads st (attr_setstack st.threads a frames)) }
    {
        plain(self.threads.attr_setstack(a, frames))
    }

    // ---- threads

    /// A thread is marked detached.
    pub(crate) fn detach(&mut self, target: i64) -> Answer
        ensures { Answers self.old self.new result [] (λ s st. on_threads st (detach st.threads target)) }
    {
        plain(self.threads.detach(target))
    }

    /// The thread leaves its processor and is ready.
    pub(crate) fn give_way(&mut self, t: Tid) -> Answer
        requires room { has_room self.old.rows t ≡ true }
        requires arrival { self.old.rows.next_arrival + 1 < 2 ^ 64 }
        ensures { Answers self.old self.new result [] (λ s st. answers reply.Done (record st { rows = block_in st.rows row.Ready t (rank_of st t) })) }
    {
        let rank = self.threads.rank(t);
        self.rows.block(RowId::Ready, t, rank);
        plain(Reply::Done)
    }

    /// The thread sets its general cancelability.
    pub(crate) fn setcancel(&mut self, t: Tid, on: bool) -> Answer
        ensures { Answers self.old self.new result [] (λ s st. on_threads st (setcancel st.threads t on)) }
    {
        plain(self.threads.setcancel(t, on))
    }

    /// The thread sets its asynchronous cancelability.
    pub(crate) fn setasynccancel(&mut self, t: Tid, on: bool) -> Answer
        ensures { Answers self.old self.new result [] (λ s st. on_threads st (setasynccancel st.threads t on)) }
    {
        plain(self.threads.setasynccancel(t, on))
    }

    /// The priority of a thread.
    pub(crate) fn getprio(&self, target: i64) -> Answer
        ensures { Answers self.now self.now result [] (λ s st. answers (getprio st.threads target) st) }
    {
        plain(self.threads.getprio(target))
    }

    /// The policy of a thread.
    pub(crate) fn getscheduler(&self, target: i64) -> Answer
        ensures { Answers self.now self.now result [] (λ s st. answers (getscheduler st.threads target) st) }
    {
        plain(self.threads.getscheduler(target))
    }

    /// A thread gets a priority, and its new rank at once.
    pub(crate) fn setprio(&mut self, target: i64, prio: i64) -> Answer
        ensures { Answers self.old self.new result [] (λ s st. ranks st target (setprio st.threads target prio)) }
    {
        let who = named(&self.threads, target);
        let said = self.threads.setprio(target, prio);
        rerank(who, said, &self.threads, &mut self.rows);
        plain(said)
    }

    /// A thread gets a policy and a priority, and its new rank at once.
    pub(crate) fn setscheduler(&mut self, target: i64, policy: Policy, prio: i64) -> Answer
        ensures { Answers self.old self.new result [] (λ s st. ranks st target (setscheduler st.threads target policy prio)) }
    {
        let who = named(&self.threads, target);
        let said = self.threads.setscheduler(target, policy, prio);
        rerank(who, said, &self.threads, &mut self.rows);
        plain(said)
    }

    // ---- create and join

    /// A thread creates another, which is ready at its routine.
    pub(crate) fn create(
        &mut self,
        t: Tid,
        a: Option<NameId>,
        routine: NameId,
        value: i64,
    ) -> Answer
        requires known { IfSome a (λ n. n.0 < names) }
        requires number { self.old.threads.next + 1 < 2 ^ 32 }
        requires arrival { self.old.rows.next_arrival + 1 < 2 ^ 64 }
        requires recorded { SeatsHaveRecords self.old.threads self.old.rows }
        ensures { Answers self.old self.new result [] (λ s st. creates s st routine value (create st.threads t a)) }
    {
        let _seats = self.rows.len();
        let said = self.threads.create(t, a);
        match replies::value_in(said) {
            None => plain(said),
            Some(n) => match named(&self.threads, n) {
                None => plain(said),
                Some(new) => {
                    self.rows.put(RowId::Ready, new, self.threads.rank(new));
                    Answer {
                        reply: said,
                        runs: false,
                        begins: Some((new, routine, value)),
                    }
                }
            },
        }
    }

    /// A thread joins another, and waits where that has not ended.
    pub(crate) fn join(&mut self, t: Tid, target: i64) -> Answer
        requires room { has_room self.old.rows t ≡ true }
        requires arrival { self.old.rows.next_arrival + 1 < 2 ^ 64 }
        ensures { Answers self.old self.new result [] (λ s st. joins st t target (join st.threads t target)) }
    {
        let said = self.threads.join(t, target);
        if !replies::is_blocks(said) {
            return plain(said);
        }
        match named(&self.threads, target) {
            None => plain(said),
            Some(other) => {
                self.rows.block(RowId::Join(other), t, self.threads.rank(t));
                plain(said)
            }
        }
    }

    // ---- cancel

    /// A point at which a cancel that is pending is delivered, which the layer above does.
    pub(crate) fn testcancel(&self) -> Answer
        ensures { Answers self.now self.now result [] (λ s st. answers reply.Done st) }
    {
        let _ = &self.clock;
        plain(Reply::Done)
    }

    /// A thread is cancelled. Where that ends its wait it owes the delivery, and is ready or waits for its mutex.
    pub(crate) fn cancel(&mut self, target: i64, gifts: &mut Gifts) -> Answer
        requires arrival { self.old.rows.next_arrival + 1 < 2 ^ 64 }
        requires waits { WaitsAgree self.old.conds self.old.rows }
        requires fit { MutexesFit self.old.conds }
        requires owers { OwersStand self.old.debts self.old.rows }
        requires gifts { gifts.old ≡ [] }
        ensures { Answers self.old self.new result gifts.new (λ s st. cancels_thread st target) }
    {
        match named(&self.threads, target) {
            None => plain(self.threads.cancel(target, false)),
            Some(t) => self.cancel_named(t, target, gifts),
        }
    }

    /// The same of a thread that the number names.
    fn cancel_named(&mut self, t: Tid, target: i64, gifts: &mut Gifts) -> Answer
        requires number { t.0 ≡ natural target }
        requires arrival { self.old.rows.next_arrival + 1 < 2 ^ 64 }
        requires waits { WaitsAgree self.old.conds self.old.rows }
        requires fit { MutexesFit self.old.conds }
        requires owers { OwersStand self.old.debts self.old.rows }
        requires gifts { gifts.old ≡ [] }
        ensures { Answers self.old self.new result gifts.new (λ s st. cancels_thread st target) }
    {
        let _seats = self.rows.len();
        let _debts = self.debts.len();
        let rank = self.threads.rank(t);
        let at_point = waits::is_point(self.rows.row_of(t));
        let said = self.threads.cancel(target, at_point);
        if !replies::is_wakes(said) {
            return plain(said);
        }
        let m = waits::leave(t, &mut self.conds, &mut self.pipes, &mut self.rows);
        let gets = waits::resume(t, m, rank, &mut self.locks, &mut self.rows);
        self.debts.owe(t, Debt::Delivery);
        waits::note(t, m, gets, gifts);
        plain(said)
    }
}
