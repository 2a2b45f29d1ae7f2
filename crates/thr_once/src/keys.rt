//! Keys that are made, with their destructors and values.
ghost use Rattle.std.specs.Prelude.{◌≡◌, ◌+◌, ◌<◌, ◌≤◌, ◌↔◌, true, false, pos, Some, None, IfOk, IfSome, OnOk, OnErr, IsTrue};
ghost use Rattle.std.specs.Option.{option_map};
ghost use Rattle.thr_parts.specs.Tables.{names, none, get, has, put, put_if};
ghost use Rattle.thr_parts.specs.Keys.{new_key, as_valued, value_in, called_with, first_call};
ghost use Rattle.thr_once.specs.Values.{keys_of, IsKept, called_at};

use crate::values::{self, KeyValue};
use std::alloc::Global;
use std::marker::Model;
use thr_tables::Slots;
use thr_values::number::{NameId, NoMemory, Tid};

/// A key, its destructor, and the value with which that is called.
pub type DestructorCall = (NameId, NameId, i64);

/// The keys that are made, with their destructors, and the values of threads, of which 0 isn't kept (docs/machine.md,
/// "Keys").
#[derive(Drop)]
pub struct Keys {
    made: Slots<Option<NameId>>,
    values: Vec<KeyValue>,
}

impl Model for Keys {
    ghost use Rattle.thr_once.specs.Views.{KeysView};

    ghost Value = { KeysView };

    ghost use Rattle.std.specs.Prelude.{◌-◌, vec_len, vec_capacity};
    ghost use Rattle.thr_once.specs.Values.{keys_of, IsKept};

    ghost view = { λ a. record { keys = keys_of a.made a.values.items; room = vec_capacity a.values - vec_len a.values } };

    ghost invariant = { λ a. IsKept a.made a.values.items };
}

// ---- destructors

/// The call of a key's destructor with this value, unless that is 0.
fn called_with(k: NameId, routine: NameId, value: i64) -> Option<DestructorCall>
    ensures call { result ≡ called_with k.0 (Some routine) value }
    ensures its { IfSome result (λ c. c.0.0 ≡ k.0) }
{
    if values::is_zero(value) {
        return None;
    }
    Some((k, routine, value))
}

/// The call of the destructor with which the key of the value is made, where it has one.
fn call_of(made: &Slots<Option<NameId>>, v: KeyValue) -> Option<DestructorCall>
    requires known { v.key.0 < names }
    ensures call { result ≡ called_at v.key.0 (get made.now v.key.0) v.value }
    ensures made { IfSome result (λ c. has made.now c.0.0 ≡ true) }
{
    match made.get(v.key) {
        None => None,
        Some(destructor) => match destructor {
            None => None,
            Some(routine) => called_with(v.key, routine, v.value),
        },
    }
}

/// The call of the key of least number that has one. The values of the thread stand one behind the other, by keys.
fn next_in(made: &Slots<Option<NameId>>, values: &[KeyValue], t: Tid) -> Option<DestructorCall>
    requires kept { IsKept made.now values.now }
    ensures call { result ≡ first_call t (keys_of made.now values.now) }
    ensures made { IfSome result (λ c. has made.now c.0.0 ≡ true) }
{
    let mut i = values::place_of(values, NameId(0), t);
    while i < values.len() {
        let value = values[i];
        if value.thread.0 != t.0 {
            return None;
        }
        let call = call_of(made, value);
        if call.is_some() {
            return call;
        }
        i += 1;
    }
    None
}

impl Keys {
    /// No key is made.
    pub fn new(alloc: Global) -> Result<Keys, NoMemory>
        ensures { IfOk result (λ view. view.keys ≡ none) }
    {
        let made = Slots::new(alloc)?;
        Ok(Keys {
            made,
            values: Vec::new(alloc),
        })
    }

    /// Gives room for one value more.
    pub fn make_room(&mut self) -> Result<(), NoMemory>
        ensures room { OnOk result (1 ≤ self.new.room) }
        ensures keys { self.new.keys ≡ self.old.keys }
        ensures refused { OnErr result (self.new ≡ self.old) }
        ensures full { OnErr result (self.old.room ≡ 0) }
        ensures kept { self.old.room ≤ self.new.room }
    {
        match self.values.reserve(1) {
            Ok(()) => Ok(()),
            Err(_) => Err(NoMemory),
        }
    }

    /// There is room for one value more.
    pub fn has_room(&self) -> bool
        ensures { IsTrue result ↔ (1 ≤ self.now.room) }
    {
        self.values.len() < self.values.capacity()
    }

    /// The key is made.
    pub fn is_made(&self, k: NameId) -> bool
        requires known { k.0 < names }
        ensures made { result ≡ has self.now.keys k.0 }
        ensures unmade { result ≡ false → get self.now.keys k.0 ≡ None }
    {
        self.made.get(k).is_some()
    }

    /// A key that wasn't made is made, with no values.
    pub fn make(&mut self, k: NameId, destructor: Option<NameId>)
        requires known { k.0 < names }
        requires unmade { has self.old.keys k.0 ≡ false }
        ensures keys { self.new.keys ≡ put self.old.keys k.0 (new_key destructor) }
        ensures room { self.new.room ≡ self.old.room }
    {
        self.made.put(k, destructor);
    }

    /// The value that the thread has of the key, where that is made.
    pub fn get(&self, k: NameId, t: Tid) -> Option<i64>
        requires known { k.0 < names }
        ensures { result ≡ option_map (λ key. value_in key t) (get self.now.keys k.0) }
    {
        match self.made.get(k) {
            None => None,
            Some(_) => Some(values::value_of(&self.values, k, t)),
        }
    }

    /// The thread has this value of the key from now on.
    pub fn set(&mut self, k: NameId, t: Tid, value: i64)
        requires made { has self.old.keys k.0 ≡ true }
        requires room { 1 ≤ self.old.room }
        ensures keys { self.new.keys ≡ put_if self.old.keys k.0 (option_map (as_valued t value) (get self.old.keys k.0)) }
        ensures room { self.old.room ≤ self.new.room + 1 }
    {
        values::store(&mut self.values, k, t, value);
    }

    /// The thread's value of the key is 0 from now on.
    pub fn clear(&mut self, k: NameId, t: Tid)
        requires made { has self.old.keys k.0 ≡ true }
        ensures keys { self.new.keys ≡ put_if self.old.keys k.0 (option_map (as_valued t (pos 0)) (get self.old.keys k.0)) }
        ensures room { self.old.room ≤ self.new.room }
    {
        values::clear(&mut self.values, k, t);
    }

    /// The destructor that the ending thread calls next.
    pub fn next_call(&self, t: Tid) -> Option<DestructorCall>
        ensures call { result ≡ first_call t self.now.keys }
        ensures made { IfSome result (λ c. has self.now.keys c.0.0 ≡ true) }
    {
        next_in(&self.made, &self.values, t)
    }
}
