//! The answer to each call.
ghost use Rattle.std.specs.Prelude.{◌≡◌, []};
ghost use Rattle.thr_model.specs.Calls.{answered};
ghost use Rattle.thr_services.specs.declared.groups.Group.TheVariants as group;
ghost use Rattle.thr_services.specs.Groups.{group_of};
ghost use Rattle.thr_services.specs.Answers.{listed, Answers};
ghost use Rattle.thr_services.specs.Sound.{IsSound, NamesFit};

use crate::answer::{Answer, Numbers, first, plain, second};
use crate::gifts::Gifts;
use crate::groups::{Group, group_of};
use crate::services::Services;
use thr_syntax::dce::DceCall;
use thr_values::number::Tid;
use thr_values::reply::Reply;

impl Services {
    /// The answer to a call by this thread, whose expressions have these values. Whoever was given a mutex by it, or the
    /// global lock, stands in the list afterwards, and nobody else.
    pub fn answer(&mut self, t: Tid, call: &DceCall, ns: Numbers, gifts: &mut Gifts) -> Answer
        requires sound { IsSound self.old t }
        requires fit { NamesFit call.now }
        ensures answered { Answers self.old self.new result gifts.new (λ s st. answered s st t call.now (listed ns)) }
    {
        gifts.clear();
        match group_of(call) {
            Group::Cells => self.answer_on_cells(t, call, ns),
            Group::Threads => self.answer_on_threads(t, call, ns),
            Group::Ranks => self.answer_on_ranks(t, call, ns),
            Group::Cancels => self.answer_on_cancels(t, call, ns, gifts),
            Group::Mutexes => self.answer_on_mutexes(t, call, ns),
            Group::Locks => self.answer_on_locks(t, call, ns, gifts),
            Group::Conds => self.answer_on_conds(t, call, ns, gifts),
            Group::Times => self.answer_on_times(t, call, ns),
            Group::Onces => self.answer_on_onces(t, call, ns),
            Group::Pipes => self.answer_on_pipes(t, call, ns),
        }
    }

    /// The answer to a call on attribute cells of threads.
    fn answer_on_cells(&mut self, t: Tid, call: &DceCall, ns: Numbers) -> Answer
        requires group { group_of call.now ≡ group.Cells }
        requires sound { IsSound self.old t }
        requires fit { NamesFit call.now }
        ensures { Answers self.old self.new result [] (λ s st. answered s st t call.now (listed ns)) }
    {
        match call {
            DceCall::AttrCreate(a) => self.attr_create(*a),
            DceCall::AttrDelete(a) => self.attr_delete(*a),
            DceCall::AttrSetsched(a, policy) => self.attr_setsched(*a, *policy),
            DceCall::AttrSetprio(a, _) => self.attr_setprio(*a, first(ns)),
            DceCall::AttrSetinheritsched(a, inherits) => self.attr_setinherit(*a, *inherits),
            DceCall::AttrSetstacksize(a, _) => self.attr_setstack(*a, first(ns)),
            _ => plain(Reply::Done),
        }
    }

    /// The answer to a call on threads.
    fn answer_on_threads(&mut self, t: Tid, call: &DceCall, ns: Numbers) -> Answer
        requires group { group_of call.now ≡ group.Threads }
        requires sound { IsSound self.old t }
        requires fit { NamesFit call.now }
        ensures { Answers self.old self.new result [] (λ s st. answered s st t call.now (listed ns)) }
    {
        match call {
            DceCall::Create(_, a, routine, _) => self.create(t, *a, *routine, first(ns)),
            DceCall::Join(_, _) => self.join(t, first(ns)),
            DceCall::Detach(_) => self.detach(first(ns)),
            DceCall::Yield => self.give_way(t),
            _ => plain(Reply::Done),
        }
    }

    /// The answer to a call on policies and priorities of threads.
    fn answer_on_ranks(&mut self, t: Tid, call: &DceCall, ns: Numbers) -> Answer
        requires group { group_of call.now ≡ group.Ranks }
        requires sound { IsSound self.old t }
        requires fit { NamesFit call.now }
        ensures { Answers self.old self.new result [] (λ s st. answered s st t call.now (listed ns)) }
    {
        match call {
            DceCall::Setprio(_, _, _) => self.setprio(first(ns), second(ns)),
            DceCall::Getprio(_, _) => self.getprio(first(ns)),
            DceCall::Setscheduler(_, policy, _, _) => self.setscheduler(
                first(ns),
                *policy,
                second(ns),
            ),
            DceCall::Getscheduler(_, _) => self.getscheduler(first(ns)),
            _ => plain(Reply::Done),
        }
    }

    /// The answer to a call on cancels.
    fn answer_on_cancels(
        &mut self,
        t: Tid,
        call: &DceCall,
        ns: Numbers,
        gifts: &mut Gifts,
    ) -> Answer
        requires group { group_of call.now ≡ group.Cancels }
        requires sound { IsSound self.old t }
        requires fit { NamesFit call.now }
        requires gifts { gifts.old ≡ [] }
        ensures { Answers self.old self.new result gifts.new (λ s st. answered s st t call.now (listed ns)) }
    {
        match call {
            DceCall::Cancel(_) => self.cancel(first(ns), gifts),
            DceCall::Testcancel => self.testcancel(),
            DceCall::Setcancel(on, _) => self.setcancel(t, *on),
            DceCall::Setasynccancel(on, _) => self.setasynccancel(t, *on),
            _ => plain(Reply::Done),
        }
    }

    /// The answer to a call on mutexes and their attribute cells.
    fn answer_on_mutexes(&mut self, t: Tid, call: &DceCall, ns: Numbers) -> Answer
        requires group { group_of call.now ≡ group.Mutexes }
        requires sound { IsSound self.old t }
        requires fit { NamesFit call.now }
        ensures { Answers self.old self.new result [] (λ s st. answered s st t call.now (listed ns)) }
    {
        match call {
            DceCall::MutexattrCreate(a) => self.mutexattr_create(*a),
            DceCall::MutexattrSetkindNp(a, kind) => self.mutexattr_setkind(*a, *kind),
            DceCall::MutexattrDelete(a) => self.mutexattr_delete(*a),
            DceCall::MutexInit(m, a) => self.mutex_init(*m, *a),
            DceCall::MutexDestroy(m) => self.mutex_destroy(*m),
            _ => plain(Reply::Done),
        }
    }

    /// The answer to a call on mutexes that are locked and unlocked, and the global lock.
    fn answer_on_locks(&mut self, t: Tid, call: &DceCall, ns: Numbers, gifts: &mut Gifts) -> Answer
        requires group { group_of call.now ≡ group.Locks }
        requires sound { IsSound self.old t }
        requires fit { NamesFit call.now }
        requires gifts { gifts.old ≡ [] }
        ensures { Answers self.old self.new result gifts.new (λ s st. answered s st t call.now (listed ns)) }
    {
        match call {
            DceCall::MutexLock(m) => self.lock(t, Some(*m)),
            DceCall::MutexTrylock(m, _) => self.mutex_trylock(t, *m),
            DceCall::MutexUnlock(m) => self.unlock(t, Some(*m), gifts),
            DceCall::LockGlobalNp => self.lock(t, None),
            DceCall::UnlockGlobalNp => self.unlock(t, None, gifts),
            _ => plain(Reply::Done),
        }
    }

    /// The answer to a call on conditions.
    fn answer_on_conds(&mut self, t: Tid, call: &DceCall, ns: Numbers, gifts: &mut Gifts) -> Answer
        requires group { group_of call.now ≡ group.Conds }
        requires sound { IsSound self.old t }
        requires fit { NamesFit call.now }
        requires gifts { gifts.old ≡ [] }
        ensures { Answers self.old self.new result gifts.new (λ s st. answered s st t call.now (listed ns)) }
    {
        match call {
            DceCall::CondInit(c) => self.cond_init(*c),
            DceCall::CondDestroy(c) => self.cond_destroy(*c),
            DceCall::CondWait(c, m) => self.cond_wait(t, *c, *m, gifts),
            DceCall::CondTimedwait(c, m, _) => self.cond_timedwait(t, *c, *m, first(ns), gifts),
            DceCall::CondSignal(c) => self.cond_signal(*c, gifts),
            DceCall::CondBroadcast(c) => self.cond_broadcast(*c, gifts),
            _ => plain(Reply::Done),
        }
    }

    /// The answer to a call on times.
    fn answer_on_times(&mut self, t: Tid, call: &DceCall, ns: Numbers) -> Answer
        requires group { group_of call.now ≡ group.Times }
        requires sound { IsSound self.old t }
        requires fit { NamesFit call.now }
        ensures { Answers self.old self.new result [] (λ s st. answered s st t call.now (listed ns)) }
    {
        match call {
            DceCall::DelayNp(_) => self.delay(t, first(ns)),
            DceCall::GetExpirationNp(_, _) => self.get_expiration(first(ns)),
            _ => plain(Reply::Done),
        }
    }

    /// The answer to a call on once blocks and keys.
    fn answer_on_onces(&mut self, t: Tid, call: &DceCall, ns: Numbers) -> Answer
        requires group { group_of call.now ≡ group.Onces }
        requires sound { IsSound self.old t }
        requires fit { NamesFit call.now }
        ensures { Answers self.old self.new result [] (λ s st. answered s st t call.now (listed ns)) }
    {
        match call {
            DceCall::Once(o, _) => self.once(t, *o),
            DceCall::Keycreate(k, destructor) => self.keycreate(*k, *destructor),
            DceCall::Setspecific(k, _) => self.setspecific(t, *k, first(ns)),
            DceCall::Getspecific(k, _) => self.getspecific(t, *k),
            _ => plain(Reply::Done),
        }
    }

    /// The answer to a call on pipes.
    fn answer_on_pipes(&mut self, t: Tid, call: &DceCall, ns: Numbers) -> Answer
        requires group { group_of call.now ≡ group.Pipes }
        requires sound { IsSound self.old t }
        requires fit { NamesFit call.now }
        ensures { Answers self.old self.new result [] (λ s st. answered s st t call.now (listed ns)) }
    {
        match call {
            DceCall::Read(p, _, _) => self.read(t, *p),
            DceCall::Write(p, _) => self.write(t, *p, first(ns)),
            DceCall::Close(p) => self.close(*p),
            _ => plain(Reply::Done),
        }
    }
}
