//! The records of threads and the attribute cells: who is created, joined, detached and ended.
ghost use Rattle.std.specs.Prelude.{◌≡◌, true, option_copied, IsOk, IfOk, IfSome};
ghost use Rattle.thr_parts.specs.Tables.{has, put, cut};
ghost use Rattle.thr_parts.specs.Threads.{first_threads, with_records, natural, record_of, rank_at, live, new_attr, new_thread, attr_at, created_by, create, ended_reply, join, detach, set_ended};
ghost use Rattle.thr_tables.specs.Ranges.{IsNameIfThere};
ghost use Rattle.thr_threads.specs.Numbers.{HasNumberLeft};
ghost use Rattle.thr_threads.specs.Records.{IsRight, IsRecordOf};
ghost use Rattle.thr_threads.specs.Living.{count_and_first};

use crate::cells::Cells;
use crate::records::{MOST, Records};
use std::alloc::Global;
use std::marker::Model;
use thr_parts::thread::{Attr, Thread};
use thr_values::number::{NameId, NoMemory, Tid};
use thr_values::reply::Reply;
use thr_values::scheduling::{self, Mode, Policy};

/// The records of threads, the number of the next thread, and the attribute cells that are made (docs/machine.md, "Thread
/// records").
#[derive(Drop)]
pub struct Threads {
    pub(crate) records: Records,
    next: u32,
    pub(crate) attrs: Cells,
}

impl Model for Threads {
    ghost use Rattle.thr_parts.specs.Threads.{Threads};

    ghost Value = { Threads };

    ghost view = { λ a. record { records = a.records; next = a.next; attrs = a.attrs } };
}

// ---- cells and threads as they are made

/// An attribute cell as it is created, which `default` stands for.
pub fn new_attr() -> Attr
    ensures cell { result ≡ new_attr }
    ensures right { IsRight result.prio result.frames }
{
    Attr {
        policy: Policy::Fg,
        prio: 16,
        inherits: true,
        frames: 256,
    }
}

/// A thread as it is created.
fn new_thread(tid: Tid, policy: Policy, prio: u8, frames: u32) -> Thread
    requires right { IsRight prio frames }
    ensures thread { result ≡ new_thread tid policy prio frames }
    ensures its { IsRecordOf tid.0 result }
{
    Thread {
        tid,
        policy,
        prio,
        frames,
        mode: Mode {
            pending: false,
            general: true,
            asynchronous: false,
        },
        detached: false,
        ended: None,
    }
}

/// The thread of this number with this maker and this cell.
fn created_by(t: u32, maker: Option<Thread>, cell: Attr) -> Thread
    requires maker { IfSome maker (λ th. IsRight th.prio th.frames) }
    requires cell { IsRight cell.prio cell.frames }
    ensures thread { result ≡ created_by t maker cell }
    ensures its { IsRecordOf t result }
{
    match maker {
        None => new_thread(Tid(t), cell.policy, cell.prio, cell.frames),
        Some(maker) => {
            if cell.inherits {
                new_thread(Tid(t), maker.policy, maker.prio, cell.frames)
            } else {
                new_thread(Tid(t), cell.policy, cell.prio, cell.frames)
            }
        }
    }
}

/// What the join of a thread replies that has ended or hasn't.
fn ended_reply(ended: Option<i64>) -> Reply
    ensures { result ≡ ended_reply ended }
{
    match ended {
        None => Reply::Blocks,
        Some(value) => Reply::Value(value),
    }
}

impl Threads {
    /// There is the first thread alone, made as `default` says. All memory is taken here: no later call takes any.
    pub fn new(alloc: Global) -> Result<Threads, NoMemory>
        ensures { IfOk result (λ threads. threads ≡ first_threads) }
    {
        let mut records = Records::new(alloc)?;
        let attrs = Cells::new(alloc)?;
        let cell = new_attr();
        records.put(
            Tid(1),
            new_thread(Tid(1), cell.policy, cell.prio, cell.frames),
        );
        Ok(Threads {
            records,
            next: 2,
            attrs,
        })
    }

    /// Gives room for one record more. `new` has taken it, so this is never refused and `create` needs no call of it.
    pub fn make_room(&mut self) -> Result<(), NoMemory>
        ensures ok { IsOk result }
        ensures same { self.new ≡ self.old }
    {
        Ok(())
    }

    // ---- records

    /// The record of the thread that the number names.
    pub fn get(&self, target: i64) -> Option<&Thread>
        ensures record { option_copied result ≡ record_of self.now target }
        ensures its { IfSome result (λ th. IsRecordOf (natural target) th.now) }
    {
        self.records.named(target)
    }

    /// The record of the thread that the number names, copied.
    pub(crate) fn find(&self, target: i64) -> Option<Thread>
        ensures record { result ≡ record_of self.now target }
        ensures stands { IfSome result (λ th. has self.now.records (natural target) ≡ true) }
        ensures its { IfSome result (λ th. IsRecordOf (natural target) th) }
    {
        match self.records.named(target) {
            None => None,
            Some(th) => Some(*th),
        }
    }

    /// The thread that the number names has this record from now on, in place of another.
    pub(crate) fn set(&mut self, target: i64, th: Thread)
        requires stands { has self.old.records (natural target) ≡ true }
        requires its { IsRecordOf (natural target) th }
        ensures { self.new ≡ with_records self.old (put self.old.records (natural target) th) }
    {
        self.records.put(th.tid, th);
    }

    /// The thread that the number names has no record from now on.
    fn reclaim(&mut self, target: i64, t: Tid)
        requires number { t.0 ≡ natural target }
        ensures { self.new ≡ with_records self.old (cut self.old.records (natural target)) }
    {
        self.records.cut(t);
    }

    /// The rank of the thread, 0 where it has no record.
    pub fn rank(&self, t: Tid) -> u16
        ensures { result ≡ rank_at self.now t }
    {
        match self.records.get(t) {
            None => 0,
            Some(th) => scheduling::rank(th.policy, th.prio),
        }
    }

    /// How many threads have not ended, and the least of them. It looks at each record once.
    pub fn live(&self) -> (u32, Option<Tid>)
        ensures { result ≡ count_and_first (live self.now) }
    {
        self.records.live()
    }

    // ---- create

    /// The attribute cell of a name that is there, and else `default`.
    fn attr_at(&self, a: Option<NameId>) -> Option<Attr>
        requires known { IsNameIfThere a }
        ensures cell { result ≡ attr_at self.now a }
        ensures right { IfSome result (λ cell. IsRight cell.prio cell.frames) }
    {
        match a {
            None => Some(new_attr()),
            Some(a) => self.attrs.get(a),
        }
    }

    /// A thread creates another, whose number is the reply. Numbers aren't given again.
    pub fn create(&mut self, maker: Tid, a: Option<NameId>) -> Reply
        requires known { IsNameIfThere a }
        requires number { HasNumberLeft self.old }
        ensures { record { reply = result; threads = self.new } ≡ create self.old maker a }
    {
        match self.attr_at(a) {
            None => Reply::Einval,
            Some(cell) => {
                if self.records.len() >= MOST {
                    return Reply::Eagain;
                }
                let t = self.next;
                let made = created_by(t, self.records.get(maker), cell);
                self.records.put(Tid(t), made);
                self.next = t + 1;
                Reply::Value(i64::from(t))
            }
        }
    }

    // ---- join, detach and end

    /// What the thread's join of the one that the number names replies. Where it is `Blocks` the caller waits for the
    /// other's end.
    pub fn join(&self, caller: Tid, target: i64) -> Reply
        ensures { result ≡ join self.now caller target }
    {
        match self.find(target) {
            None => Reply::Esrch,
            Some(th) => {
                if th.tid.0 == caller.0 {
                    return Reply::Edeadlk;
                }
                if th.detached {
                    return Reply::Einval;
                }
                ended_reply(th.ended)
            }
        }
    }

    /// The thread that the number names is marked detached, and its record is reclaimed where it has ended.
    pub fn detach(&mut self, target: i64) -> Reply
        ensures { record { reply = result; threads = self.new } ≡ detach self.old target }
    {
        match self.find(target) {
            None => Reply::Esrch,
            Some(th) => {
                if th.detached {
                    return Reply::Einval;
                }
                if th.ended.is_some() {
                    self.reclaim(target, th.tid);
                    return Reply::Done;
                }
                self.set(
                    target,
                    Thread {
                        detached: true,
                        ..th
                    },
                );
                Reply::Done
            }
        }
    }

    /// The thread ends with the value, and its record is reclaimed where it is marked detached.
    pub fn set_ended(&mut self, t: Tid, value: i64)
        ensures { self.new ≡ set_ended self.old t value }
    {
        match self.records.get(t) {
            None => {}
            Some(th) => {
                if th.detached {
                    self.records.cut(t);
                    return;
                }
                self.records.put(
                    t,
                    Thread {
                        ended: Some(value),
                        ..th
                    },
                );
            }
        }
    }
}
