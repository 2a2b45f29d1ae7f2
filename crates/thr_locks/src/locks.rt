//! Who owns each mutex and the global lock, and who is handed them.
ghost use Rattle.std.specs.Prelude.{◌≡◌, Some, IfOk};
ghost use Rattle.thr_parts.specs.Tables.{has};
ghost use Rattle.thr_parts.specs.Rows.{best};
ghost use Rattle.thr_parts.specs.Moves.{take_out_if};
ghost use Rattle.thr_parts.specs.Mutexes.{no_locks, mutexattr_create, mutexattr_delete, setkind, kind_at, init, mutex_at, with_mutex, waiters_row, owner, destroy};
ghost use Rattle.thr_parts.specs.Locking.{lock, trylock, unlock, give_up, regain};
ghost use Rattle.thr_tables.specs.Ranges.{IsName, IsNameIfThere};
ghost use Rattle.thr_rows.specs.Room.{HasRoom, HasRoomToWait, HasArrivalLeft};
ghost use Rattle.thr_locks.specs.Depth.{HasDepthLeft, IsLockedOnceAtMost};
ghost use Rattle.thr_locks.specs.Handing.{handed};

use crate::held::{held_reply, one_less, owned_by, taken, waiters_row};
use std::alloc::Global;
use std::marker::Model;
use thr_parts::mutex::{Held, Mutex};
use thr_parts::row::RowId;
use thr_rows::Rows;
use thr_tables::Slots;
use thr_values::number::{NameId, NoMemory, Tid};
use thr_values::reply::{Kind, Reply};

/// The mutex attribute cells and mutexes that are made, and who owns the global lock (docs/machine.md, "Mutexes"). In each
/// call the absent name is the global lock.
#[derive(Drop)]
pub struct Locks {
    kinds: Slots<Kind>,
    mutexes: Slots<Mutex>,
    global: Option<Held>,
}

impl Model for Locks {
    ghost use Rattle.thr_parts.specs.Mutexes.{Locks};

    ghost Value = { Locks };

    ghost view = { λ a. record { kinds = a.kinds; mutexes = a.mutexes; global = a.global } };
}

impl Locks {
    /// Nothing is made, and the global lock is free.
    pub fn new(alloc: Global) -> Result<Locks, NoMemory>
        ensures { IfOk result (λ locks. locks ≡ no_locks) }
    {
        let kinds = Slots::new(alloc)?;
        let mutexes = Slots::new(alloc)?;
        Ok(Locks {
            kinds,
            mutexes,
            global: None,
        })
    }

    // ---- attribute cells

    /// A cell is made, of the kind fast.
    pub fn attr_create(&mut self, a: NameId) -> Reply
        requires known { IsName a }
        ensures { record { reply = result; locks = self.new } ≡ mutexattr_create self.old a }
    {
        match self.kinds.get(a) {
            Some(_) => Reply::Ebusy,
            None => {
                self.kinds.put(a, Kind::Fast);
                Reply::Done
            }
        }
    }

    /// A cell is not made any more.
    pub fn attr_delete(&mut self, a: NameId) -> Reply
        requires known { IsName a }
        ensures { record { reply = result; locks = self.new } ≡ mutexattr_delete self.old a }
    {
        match self.kinds.get(a) {
            None => Reply::Einval,
            Some(_) => {
                self.kinds.cut(a);
                Reply::Done
            }
        }
    }

    /// A cell gets a kind.
    pub fn setkind(&mut self, a: NameId, kind: Kind) -> Reply
        requires known { IsName a }
        ensures { record { reply = result; locks = self.new } ≡ setkind self.old a kind }
    {
        match self.kinds.get(a) {
            None => Reply::Einval,
            Some(_) => {
                self.kinds.put(a, kind);
                Reply::Done
            }
        }
    }

    // ---- made and not made

    /// The kind by the cell of a name that is there, and else by default.
    fn kind_at(&self, a: Option<NameId>) -> Option<Kind>
        requires known { IsNameIfThere a }
        ensures { result ≡ kind_at self.now a }
    {
        match a {
            None => Some(Kind::Fast),
            Some(a) => self.kinds.get(a),
        }
    }

    /// A mutex is made, of its cell's kind and free.
    pub fn init(&mut self, m: NameId, a: Option<NameId>) -> Reply
        requires m_known { IsName m }
        requires a_known { IsNameIfThere a }
        ensures { record { reply = result; locks = self.new } ≡ init self.old m a }
    {
        match self.kind_at(a) {
            None => Reply::Einval,
            Some(kind) => match self.mutexes.get(m) {
                Some(_) => Reply::Ebusy,
                None => {
                    self.mutexes.put(m, Mutex { kind, held: None });
                    Reply::Done
                }
            },
        }
    }

    /// The mutex, or else the global lock.
    fn at(&self, m: Option<NameId>) -> Option<Mutex>
        requires known { IsNameIfThere m }
        ensures { result ≡ mutex_at self.now m }
    {
        match m {
            None => Some(Mutex {
                kind: Kind::Recursive,
                held: self.global,
            }),
            Some(m) => self.mutexes.get(m),
        }
    }

    /// The mutex, or else the global lock, is so from now on.
    fn set(&mut self, m: Option<NameId>, mutex: Mutex)
        requires known { IsNameIfThere m }
        ensures { self.new ≡ with_mutex self.old m (Some mutex) }
    {
        match m {
            None => self.global = mutex.held,
            Some(m) => self.mutexes.put(m, mutex),
        }
    }

    /// The mutex is made, which a wait on a condition asks.
    pub fn is_made(&self, m: NameId) -> bool
        requires known { IsName m }
        ensures { result ≡ has self.now.mutexes m.0 }
    {
        self.mutexes.get(m).is_some()
    }

    /// Who owns it, and how often it is locked.
    pub fn owner(&self, m: Option<NameId>) -> Option<Held>
        requires known { IsNameIfThere m }
        ensures { result ≡ owner self.now m }
    {
        match self.at(m) {
            None => None,
            Some(mutex) => mutex.held,
        }
    }

    /// A mutex is not made any more. Whether a thread waits on a condition with it is told.
    pub fn destroy(&mut self, m: NameId, waits_with: bool, rows: &Rows) -> Reply
        requires known { IsName m }
        ensures { record { reply = result; locks = self.new } ≡ destroy self.old rows.now m waits_with }
    {
        match self.mutexes.get(m) {
            None => Reply::Einval,
            Some(mutex) => {
                if mutex.held.is_some() {
                    return Reply::Ebusy;
                }
                if rows.best(RowId::Mutex(m)).is_some() {
                    return Reply::Ebusy;
                }
                if waits_with {
                    return Reply::Ebusy;
                }
                self.mutexes.cut(m);
                Reply::Done
            }
        }
    }

    // ---- lock and trylock

    /// A thread locks a mutex or the global lock, or waits for it.
    pub fn lock(&mut self, m: Option<NameId>, t: Tid, rank: u16, rows: &mut Rows) -> Reply
        requires known { IsNameIfThere m }
        requires room { HasRoomToWait rows.old t }
        requires arrival { HasArrivalLeft rows.old }
        requires depth { HasDepthLeft self.old m }
        ensures { record { reply = result; locks = self.new; rows = rows.new } ≡ lock self.old rows.old m t rank }
    {
        match self.at(m) {
            None => Reply::Einval,
            Some(mutex) => match held_reply(mutex.kind, mutex.held, t) {
                Reply::Done => {
                    let held = Some(taken(mutex.held, t));
                    let kind = mutex.kind;
                    self.set(m, Mutex { kind, held });
                    Reply::Done
                }
                Reply::Blocks => {
                    rows.block(waiters_row(m), t, rank);
                    Reply::Blocks
                }
                said => said,
            },
        }
    }

    /// A thread locks a mutex where a lock would reply `ok`.
    pub fn trylock(&mut self, m: NameId, t: Tid) -> Reply
        requires known { IsName m }
        requires depth { HasDepthLeft self.old (Some m) }
        ensures { record { reply = result; locks = self.new } ≡ trylock self.old m t }
    {
        match self.at(Some(m)) {
            None => Reply::Einval,
            Some(mutex) => match held_reply(mutex.kind, mutex.held, t) {
                Reply::Done => {
                    let held = Some(taken(mutex.held, t));
                    let kind = mutex.kind;
                    self.set(Some(m), Mutex { kind, held });
                    Reply::Value(1)
                }
                _ => Reply::Value(0),
            },
        }
    }

    // ---- unlock and hand-over

    /// A thread unlocks a mutex or the global lock. Where it gives that up the best that waits for it has it at once: the
    /// second part of the answer.
    pub fn unlock(&mut self, m: Option<NameId>, t: Tid, rows: &mut Rows) -> (Reply, Option<Tid>)
        requires known { IsNameIfThere m }
        ensures { record { reply = result.0; locks = self.new; rows = rows.new; given = result.1 } ≡ unlock self.old rows.old m t }
    {
        match self.at(m) {
            None => (Reply::Einval, None),
            Some(mutex) => match mutex.held {
                None => (Reply::Eperm, None),
                Some(held) => {
                    if held.owner.0 != t.0 {
                        return (Reply::Eperm, None);
                    }
                    let kind = mutex.kind;
                    if held.depth > 1 {
                        let held = Some(one_less(held));
                        self.set(m, Mutex { kind, held });
                        return (Reply::Done, None);
                    }
                    (Reply::Done, self.hand_over(m, kind, rows))
                }
            },
        }
    }

    /// The best that waits for it, taken out of its row.
    fn take_waiter(m: Option<NameId>, rows: &mut Rows) -> Option<Tid>
        ensures given { result ≡ best rows.old (waiters_row m) }
        ensures rows { rows.new ≡ take_out_if rows.old result }
    {
        match rows.best(waiters_row(m)) {
            None => None,
            Some(next) => {
                let _ = rows.take_out(next);
                Some(next)
            }
        }
    }

    /// The best that waits for it has it, or nobody.
    fn hand_over(&mut self, m: Option<NameId>, kind: Kind, rows: &mut Rows) -> Option<Tid>
        requires known { IsNameIfThere m }
        ensures given { result ≡ best rows.old (waiters_row m) }
        ensures locks { self.new ≡ with_mutex self.old m (Some (handed kind result)) }
        ensures rows { rows.new ≡ take_out_if rows.old result }
    {
        let next = Self::take_waiter(m, rows);
        let held = next.map(owned_by);
        self.set(m, Mutex { kind, held });
        next
    }

    /// A mutex, which is locked once at most, is given up: the best that waits for it has it at once, and is the answer; it is
    /// free where nobody does. Waits on conditions give their mutexes up so.
    pub fn give_up(&mut self, m: Option<NameId>, rows: &mut Rows) -> Option<Tid>
        requires known { IsNameIfThere m }
        requires once { IsLockedOnceAtMost self.old m }
        ensures { record { locks = self.new; rows = rows.new; given = result } ≡ give_up self.old rows.old m }
    {
        match self.at(m) {
            None => Self::take_waiter(m, rows),
            Some(mutex) => self.hand_over(m, mutex.kind, rows),
        }
    }

    // ---- a thread that left a condition

    /// The thread, which stands nowhere, gets its mutex and is ready where that is free, and else waits for it. The answer is
    /// whether it has the mutex.
    pub fn regain(&mut self, m: NameId, t: Tid, rank: u16, rows: &mut Rows) -> bool
        requires known { IsName m }
        requires room { HasRoom rows.old }
        requires arrival { HasArrivalLeft rows.old }
        ensures { record { locks = self.new; rows = rows.new; gets = result } ≡ regain self.old rows.old m t rank }
    {
        match self.at(Some(m)) {
            None => {
                rows.put(RowId::Mutex(m), t, rank);
                false
            }
            Some(mutex) => match mutex.held {
                Some(_) => {
                    rows.put(RowId::Mutex(m), t, rank);
                    false
                }
                None => {
                    let kind = mutex.kind;
                    let held = Some(owned_by(t));
                    self.set(Some(m), Mutex { kind, held });
                    rows.put(RowId::Ready, t, rank);
                    true
                }
            },
        }
    }
}
