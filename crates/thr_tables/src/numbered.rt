//! A table by the numbers of threads.
ghost use Rattle.std.specs.Prelude.{◌≡◌, ◌+◌, ◌<◌, ◌≤◌, length, vec_len, vec_capacity, true, false, IfOk, IfErr, is_some};
ghost use Rattle.std.specs.Fn.{CalledAt};
ghost use Rattle.std.specs.List.Retain.{IsFiltered};
ghost use Rattle.thr_parts.specs.Tables.{none, get, has, put, cut, IsCanonical};
ghost use Rattle.thr_tables.specs.Places.{place, is_there, has_place};

use std::alloc::Global;
use std::marker::Model;
use thr_values::number::{NoMemory, Tid};

/// The entries of threads in the order of their numbers, with room for so many (docs/machine.md, "Tables").
#[derive(Drop)]
pub struct Numbered<T, const ROOM: usize> {
    entries: Vec<(u32, T)>,
}

impl<T, const ROOM: usize> Model for Numbered<T, ROOM> {
    ghost use Rattle.std.specs.Prelude.{◌≤◌, vec_len, vec_capacity};
    ghost use Rattle.thr_parts.specs.Tables.{Table, IsCanonical};

    ghost Value = { Table T };

    ghost view = { λ a. a.entries.items };

    ghost invariant = { λ a. IsCanonical a.entries.items × (vec_len a.entries ≤ ROOM) × (ROOM ≤ vec_capacity a.entries) };
}

impl<T: Copy + Drop, const ROOM: usize> Numbered<T, ROOM> {
    /// No thread has an entry.
    pub fn new(alloc: Global) -> Result<Numbered<T, ROOM>, NoMemory>
        ensures { IfOk result (λ table. table ≡ none) }
    {
        let entries = match Vec::with_capacity(alloc, ROOM) {
            Ok(entries) => entries,
            Err(_) => return Err(NoMemory),
        };
        Ok(Numbered { entries })
    }

    /// How many threads have an entry. Their numbers rise.
    pub fn len(&self) -> usize
        ensures len { result ≡ length self.now }
        ensures within { length self.now ≤ ROOM }
        ensures rises { IsCanonical self.now }
    {
        self.entries.len()
    }

    /// The entries, in the order of their numbers.
    pub fn entries(&self) -> &[(u32, T)]
        ensures entries { result.now ≡ self.now }
        ensures rises { IsCanonical result.now }
    {
        self.entries.as_slice()
    }

    /// What stands at the number.
    pub fn get(&self, t: Tid) -> Option<T>
        ensures value { result ≡ get self.now t.0 }
        ensures known { is_some result ≡ has self.now t.0 }
    {
        find(&self.entries, t.0)
    }

    /// The value stands at the number from now on.
    pub fn put(&mut self, t: Tid, value: T)
        requires room { has_place self.old t.0 ROOM ≡ true }
        ensures { self.new ≡ put self.old t.0 value }
    {
        store::<T, ROOM>(&mut self.entries, t.0, value);
    }

    /// Nothing stands at the number from now on.
    pub fn cut(&mut self, t: Tid)
        ensures value { self.new ≡ cut self.old t.0 }
        ensures one_fewer { has self.old t.0 ≡ true → length self.new + 1 ≡ length self.old }
        ensures within { length self.old ≤ ROOM }
    {
        remove(&mut self.entries, t.0);
    }

    /// The entries stay for which the test gives true, in their order, and the others go.
    pub fn retain<F: FnMut(&(u32, T)) -> bool>(&mut self, test: F)
        requires { F.IsAlwaysCallable test }
        ensures { IsFiltered (CalledAt F.FnMut) test self.old self.new }
    {
        self.entries.retain(test);
    }
}

/// The place of a number: how many entries have lesser ones.
fn place_of<T: Copy>(entries: &[(u32, T)], t: u32) -> usize
    requires rises { IsCanonical entries.now }
    ensures { result ≡ place t entries.now }
{
    let mut low = 0;
    let mut high = entries.len();
    while low < high {
        let middle = low + (high - low) / 2;
        if entries[middle].0 < t {
            low = middle + 1;
        } else {
            high = middle;
        }
    }
    low
}

/// Where a number stands, or else where it has its place.
fn search<T: Copy>(entries: &[(u32, T)], t: u32) -> Result<usize, usize>
    requires rises { IsCanonical entries.now }
    ensures stands { IfOk result (λ i. (i ≡ place t entries.now) × (i < length entries.now) × (is_there t entries.now ≡ true)) }
    ensures misses { IfErr result (λ i. (i ≡ place t entries.now) × (i ≤ length entries.now) × (is_there t entries.now ≡ false)) }
{
    let i = place_of(entries, t);
    if i >= entries.len() {
        return Err(i);
    }
    if entries[i].0 == t {
        return Ok(i);
    }
    Err(i)
}

/// What stands at a number.
fn find<T: Copy>(entries: &[(u32, T)], t: u32) -> Option<T>
    requires rises { IsCanonical entries.now }
    ensures value { result ≡ get entries.now t }
    ensures known { is_some result ≡ has entries.now t }
{
    match search(entries, t) {
        Ok(i) => Some(entries[i].1),
        Err(_) => None,
    }
}

/// The value stands at the number from now on, whatever stood there.
fn store<T: Copy + Drop, const ROOM: usize>(entries: &mut Vec<(u32, T)>, t: u32, value: T)
    requires rises { IsCanonical entries.old.items }
    requires within { vec_len entries.old ≤ ROOM }
    requires capacity { ROOM ≤ vec_capacity entries.old }
    requires room { has_place entries.old.items t ROOM ≡ true }
    ensures items { entries.new.items ≡ put entries.old.items t value }
    ensures rises { IsCanonical entries.new.items }
    ensures within { vec_len entries.new ≤ ROOM }
    ensures capacity { ROOM ≤ vec_capacity entries.new }
{
    match search(entries, t) {
        Ok(i) => entries[i] = (t, value),
        Err(i) => {
            let _ = entries.insert(i, (t, value));
        }
    }
}

/// Nothing stands at the number from now on.
fn remove<T: Copy + Drop>(entries: &mut Vec<(u32, T)>, t: u32)
    requires rises { IsCanonical entries.old.items }
    ensures items { entries.new.items ≡ cut entries.old.items t }
    ensures rises { IsCanonical entries.new.items }
    ensures fewer { vec_len entries.new ≤ vec_len entries.old }
    ensures one_fewer { has entries.old.items t ≡ true → vec_len entries.new + 1 ≡ vec_len entries.old }
    ensures capacity { vec_capacity entries.new ≡ vec_capacity entries.old }
{
    match search(entries, t) {
        Ok(i) => {
            let _ = entries.remove(i);
        }
        Err(_) => {}
    }
}
