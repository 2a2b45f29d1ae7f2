//! The values that threads have of keys, in one list: by threads, and for one thread by keys.
ghost use Rattle.std.specs.Prelude.{◌≡◌, ◌+◌, ◌<◌, ◌≤◌, pos, true, false, length, vec_len, vec_capacity, IfOk, IfErr};
ghost use Rattle.thr_parts.specs.Tables.{names, at, cut, put};
ghost use Rattle.thr_parts.specs.Keys.{is_zero};
ghost use Rattle.thr_tables.specs.Places.{place, is_there};
ghost use Rattle.thr_once.specs.Values.{place_number, comes_before, is_of, by_place, stored, AreOrdered};

use thr_values::number::{NameId, Tid};

/// The value that a thread has of a key (docs/machine.md, "Keys").
#[derive(Clone, Copy, Debug, PartialEq, Eq)]
pub struct KeyValue {
    pub key: NameId,
    pub thread: Tid,
    pub value: i64,
}

/// The number is 0.
pub fn is_zero(value: i64) -> bool
    ensures { result ≡ is_zero value }
{
    value == 0
}

// ---- the order

/// The value comes before those of the key for the thread.
fn comes_before(k: NameId, t: Tid, v: &KeyValue) -> bool
    ensures { result ≡ comes_before k.0 t.0 v.now }
{
    if v.thread.0 == t.0 {
        return v.key.0 < k.0;
    }
    v.thread.0 < t.0
}

/// The value is that of the key for the thread.
fn is_of(k: NameId, t: Tid, v: &KeyValue) -> bool
    ensures { result ≡ is_of k.0 t.0 v.now }
{
    v.key.0 == k.0 && v.thread.0 == t.0
}

/// The place of the key's value for the thread: how many come before.
pub fn place_of(values: &[KeyValue], k: NameId, t: Tid) -> usize
    requires ordered { AreOrdered values.now }
    requires known { k.0 < names }
    ensures { result ≡ place (place_number k.0 t.0) (by_place values.now) }
{
    values.partition_point(|v| comes_before(k, t, v))
}

/// Where the key's value for the thread stands, or else where it has its place.
fn search(values: &[KeyValue], k: NameId, t: Tid) -> Result<usize, usize>
    requires ordered { AreOrdered values.now }
    requires known { k.0 < names }
    ensures stands { IfOk result (λ i. (i ≡ place (place_number k.0 t.0) (by_place values.now)) × (i < length values.now) × (is_there (place_number k.0 t.0) (by_place values.now) ≡ true)) }
    ensures misses { IfErr result (λ i. (i ≡ place (place_number k.0 t.0) (by_place values.now)) × (i ≤ length values.now) × (is_there (place_number k.0 t.0) (by_place values.now) ≡ false)) }
{
    let i = place_of(values, k, t);
    if i >= values.len() {
        return Err(i);
    }
    if is_of(k, t, &values[i]) {
        return Ok(i);
    }
    Err(i)
}

// ---- values

/// The value that the thread has of the key, which is 0 where none is kept.
pub fn value_of(values: &[KeyValue], k: NameId, t: Tid) -> i64
    requires ordered { AreOrdered values.now }
    requires known { k.0 < names }
    ensures { result ≡ at (by_place values.now) (place_number k.0 t.0) (pos 0) }
{
    match search(values, k, t) {
        Ok(i) => values[i].value,
        Err(_) => 0,
    }
}

/// No value of the key is kept for the thread from now on.
pub fn clear(values: &mut Vec<KeyValue>, k: NameId, t: Tid)
    requires ordered { AreOrdered values.old.items }
    requires known { k.0 < names }
    ensures values { by_place values.new.items ≡ cut (by_place values.old.items) (place_number k.0 t.0) }
    ensures ordered { AreOrdered values.new.items }
    ensures fewer { vec_len values.new ≤ vec_len values.old }
    ensures capacity { vec_capacity values.new ≡ vec_capacity values.old }
{
    match search(values, k, t) {
        Ok(i) => {
            let _ = values.remove(i);
        }
        Err(_) => {}
    }
}

/// The thread has this value of its key from now on.
fn put(values: &mut Vec<KeyValue>, value: KeyValue)
    requires ordered { AreOrdered values.old.items }
    requires known { value.key.0 < names }
    requires room { vec_len values.old < vec_capacity values.old }
    ensures values { by_place values.new.items ≡ put (by_place values.old.items) (place_number value.key.0 value.thread.0) value.value }
    ensures ordered { AreOrdered values.new.items }
    ensures fewer { vec_len values.new ≤ vec_len values.old + 1 }
    ensures capacity { vec_capacity values.new ≡ vec_capacity values.old }
{
    match search(values, value.key, value.thread) {
        Ok(i) => values[i] = value,
        Err(i) => {
            let _ = values.insert(i, value);
        }
    }
}

/// The thread has this value of the key from now on.
pub fn store(values: &mut Vec<KeyValue>, k: NameId, t: Tid, value: i64)
    requires ordered { AreOrdered values.old.items }
    requires known { k.0 < names }
    requires room { vec_len values.old < vec_capacity values.old }
    ensures values { by_place values.new.items ≡ stored (by_place values.old.items) (place_number k.0 t.0) value }
    ensures ordered { AreOrdered values.new.items }
    ensures fewer { vec_len values.new ≤ vec_len values.old + 1 }
    ensures capacity { vec_capacity values.new ≡ vec_capacity values.old }
{
    if is_zero(value) {
        return clear(values, k, t);
    }
    put(
        values,
        KeyValue {
            key: k,
            thread: t,
            value,
        },
    );
}
