//! Records of threads. They stand in a slab, which gives its keys out again; numbers of threads lead to keys.
ghost use Rattle.std.specs.Prelude.{◌≡◌, ◌≤◌, true, is_none, is_some, length, option_copied, IfOk, IfSome, Some};
ghost use Rattle.slab.specs.Slab.{ContainsKey, Updates, slab_len};
ghost use Rattle.thr_parts.specs.Tables.{none, get, has, put, cut};
ghost use Rattle.thr_parts.specs.Rows.{most};
ghost use Rattle.thr_tables.specs.Places.{has_place};
ghost use Rattle.thr_parts.specs.Threads.{natural};
ghost use Rattle.thr_threads.specs.Records.{IsRecordOf, record_under, records_by, named};
ghost use Rattle.thr_threads.specs.Living.{living, count_and_first};

use slab::Slab;
use std::alloc::Global;
use std::marker::Model;
use thr_parts::thread::Thread;
use thr_tables::Numbered;
use thr_values::number::{NoMemory, Tid};

/// How many threads have a record at most.
pub const MOST: usize = 1024;

/// The records of threads, by their numbers (docs/machine.md, "Thread records").
#[derive(Drop)]
pub struct Records {
    keys: Numbered<usize, MOST>,
    slab: Slab<Thread>,
}

impl Model for Records {
    ghost use Rattle.thr_parts.specs.declared.thread.Thread.{Thread};
    ghost use Rattle.thr_parts.specs.Tables.{Table};

    ghost Value = { Table Thread };

    ghost use Rattle.thr_threads.specs.Records.{records_by, IsKept};

    ghost view = { λ a. records_by a.keys a.slab };

    ghost invariant = { λ a. IsKept a.keys a.slab };
}

/// The record stands under the key in place of the one that stood there.
fn replace(slab: &mut Slab<Thread>, key: usize, th: Thread)
    requires stands { ContainsKey slab.old key }
    ensures updates { Updates slab.old slab.new key (Some th) }
    ensures as_many { slab_len slab.new ≡ slab_len slab.old }
    ensures capacity { slab.new.capacity ≡ slab.old.capacity }
{
    if let Some(place) = slab.get_mut(key) {
        *place = th;
    }
}

/// The record under the key is that of a thread that has not ended; no record counts as one of these.
fn is_live(slab: &Slab<Thread>, key: usize) -> bool
    ensures { result ≡ is_none (record_under slab.now key).ended }
{
    match slab.get(key) {
        None => true,
        Some(th) => th.ended.is_none(),
    }
}

/// How many threads of these numbers with their keys have not ended, and the first of them.
fn count_live(keys: &[(u32, usize)], slab: &Slab<Thread>) -> (u32, Option<Tid>)
    requires within { length keys.now ≤ most }
    ensures { result ≡ count_and_first (living (records_by keys.now slab.now)) }
{
    let mut i = keys.len();
    let mut count = 0;
    let mut first = None;
    while i > 0 {
        i -= 1;
        let (number, key) = keys[i];
        if is_live(slab, key) {
            count += 1;
            first = Some(Tid(number));
        }
    }
    (count, first)
}

impl Records {
    /// No thread has a record. The slab has room for all, so that no later call takes memory.
    pub fn new(alloc: Global) -> Result<Records, NoMemory>
        ensures { IfOk result (λ records. records ≡ none) }
    {
        let keys = Numbered::new(alloc)?;
        let slab = match Slab::with_capacity(alloc, MOST) {
            Ok(slab) => slab,
            Err(_) => return Err(NoMemory),
        };
        Ok(Records { keys, slab })
    }

    /// How many threads have a record.
    pub fn len(&self) -> usize
        ensures { result ≡ length self.now }
    {
        self.keys.len()
    }

    /// The thread's record, lent.
    pub fn lend(&self, t: Tid) -> Option<&Thread>
        ensures record { option_copied result ≡ get self.now t.0 }
        ensures known { is_some result ≡ has self.now t.0 }
        ensures its { IfSome result (λ th. IsRecordOf t.0 th.now) }
    {
        match self.keys.get(t) {
            None => None,
            Some(key) => self.slab.get(key),
        }
    }

    /// The record of the thread that the number names, lent.
    pub fn named(&self, target: i64) -> Option<&Thread>
        ensures record { option_copied result ≡ named self.now target }
        ensures stands { IfSome result (λ th. has self.now (natural target) ≡ true) }
        ensures its { IfSome result (λ th. IsRecordOf (natural target) th.now) }
    {
        match u32::try_from(target) {
            Err(_) => {
                // No key is that of such a number.
                let _ = &self.keys;
                None
            }
            Ok(number) => self.lend(Tid(number)),
        }
    }

    /// The thread's record.
    pub fn get(&self, t: Tid) -> Option<Thread>
        ensures record { result ≡ get self.now t.0 }
        ensures known { is_some result ≡ has self.now t.0 }
        ensures its { IfSome result (λ th. IsRecordOf t.0 th) }
    {
        match self.lend(t) {
            None => None,
            Some(th) => Some(*th),
        }
    }

    /// The thread has this record from now on.
    pub fn put(&mut self, t: Tid, th: Thread)
        requires room { has_place self.old t.0 most ≡ true }
        requires its { IsRecordOf t.0 th }
        ensures { self.new ≡ put self.old t.0 th }
    {
        match self.keys.get(t) {
            Some(key) => replace(&mut self.slab, key, th),
            None => {
                let key = self.slab.insert_reserved(th);
                self.keys.put(t, key);
            }
        }
    }

    /// The thread has no record from now on.
    pub fn cut(&mut self, t: Tid)
        ensures { self.new ≡ cut self.old t.0 }
    {
        match self.keys.get(t) {
            None => {}
            Some(key) => {
                let _ = self.slab.remove(key);
                self.keys.cut(t);
            }
        }
    }

    /// How many threads have not ended, and the first of them.
    pub fn live(&self) -> (u32, Option<Tid>)
        ensures { result ≡ count_and_first (living self.now) }
    {
        let _within = self.keys.len();
        count_live(self.keys.entries(), &self.slab)
    }
}
