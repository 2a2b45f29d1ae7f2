//! How often lines of each kind stand in a history.

ghost use Rattle.std.specs.Prelude.{◌≡◌, ◌+◌, ◌<◌, ◌^◌, ℕ, [], ◌∷◌, IfOk, OnOk, ◌++◌, List, length, map, replicate, slice_index};
ghost use Rattle.thr_verdict.specs.Report.{how_many, is_creation, is_end, is_call, is_blocking_call, is_raise, is_delivery, is_catch, acquires, mutexes_in, times_acquired};
ghost use Rattle.thr_values.specs.declared.history.Entry.{Entry};
ghost use Rattle.thr_report.specs.Counting.{listed, name_of, one_if, times};

use crate::kinds;
use sqlite_items::Items;
use std::alloc::{AllocError, Global};
use thr_syntax::tree::Item;
use thr_values::history::{Entry, What};
use thr_values::number::{NameId, NoMemory};

/// How many numbers a name can have.
const NAMES: usize = 65536;

fn creations(entries: &[Entry]) -> u64
    ensures { result ≡ how_many is_creation entries.now }
{
    entries
        .iter()
        .filter(|e| kinds::is_creation(&e.what))
        .count() as u64
}

/// How many threads there are, the first one among them.
pub(crate) fn threads(entries: &[Entry]) -> u64
    ensures { result ≡ 1 + how_many is_creation entries.now }
{
    let _lines = entries.len();
    let made = creations(entries);
    1 + made
}

pub(crate) fn ends(entries: &[Entry]) -> u64
    ensures { result ≡ how_many is_end entries.now }
{
    entries.iter().filter(|e| kinds::is_end(&e.what)).count() as u64
}

pub(crate) fn calls(entries: &[Entry]) -> u64
    ensures { result ≡ how_many is_call entries.now }
{
    entries.iter().filter(|e| kinds::is_call(&e.what)).count() as u64
}

pub(crate) fn blocking_calls(entries: &[Entry]) -> u64
    ensures { result ≡ how_many is_blocking_call entries.now }
{
    entries
        .iter()
        .filter(|e| kinds::is_blocking_call(&e.what))
        .count() as u64
}

pub(crate) fn raises(entries: &[Entry]) -> u64
    ensures { result ≡ how_many is_raise entries.now }
{
    entries.iter().filter(|e| kinds::is_raise(&e.what)).count() as u64
}

pub(crate) fn deliveries(entries: &[Entry]) -> u64
    ensures { result ≡ how_many is_delivery entries.now }
{
    entries
        .iter()
        .filter(|e| kinds::is_delivery(&e.what))
        .count() as u64
}

pub(crate) fn catches(entries: &[Entry]) -> u64
    ensures { result ≡ how_many is_catch entries.now }
{
    entries.iter().filter(|e| kinds::is_catch(&e.what)).count() as u64
}

/// As many zeros.
fn zeros(alloc: Global, count: usize) -> Result<Vec<u64>, NoMemory>
    ensures { IfOk result (λ table. table.items ≡ replicate count 0) }
{
    match vec![in alloc; 0u64; count] {
        Ok(table) => Ok(table),
        Err(_) => Err(NoMemory),
    }
}

/// Counts the mutex that a thread gets, if it gets one.
fn gain(table: &mut Vec<u64>, what: &What)
    requires { (k : ℕ) → k < length table.old.items → slice_index table.old.items k + 1 < 2 ^ 64 }
    ensures len { length table.new.items ≡ length table.old.items }
    ensures each { (k : ℕ) → k < length table.old.items → slice_index table.new.items k ≡ slice_index table.old.items k + one_if (acquires (name_of k) what.now) }
{
    let Some(name) = kinds::acquired_by(what) else {
        return;
    };
    let k = name.0 as usize;
    if k >= table.len() {
        return;
    }
    table[k] += 1;
}

/// How often a thread got the mutex of each of the first `count` numbers.
fn gains(alloc: Global, entries: &[Entry], count: usize) -> Result<Vec<u64>, NoMemory>
    ensures len { IfOk result (λ table. length table.items ≡ count) }
    ensures each { IfOk result (λ table. (k : ℕ) → k < count → slice_index table.items k ≡ times entries.now k) }
{
    let mut table = zeros(alloc, count)?;
    let _lines = entries.len();
    for entry in entries {
        gain(&mut table, &entry.what);
    }
    Ok(table)
}

/// The mutex that a declaration declares, if it declares one.
fn mutex_of(item: &Item) -> Option<NameId>
    ensures { mutexes_in (item.now ∷ []) ≡ listed result }
{
    match item {
        Item::Mutex(name) => Some(*name),
        _ => None,
    }
}

/// Adds the mutex that a declaration declares, if it declares one, with how often a thread got it.
fn add_mutex(
    out: &mut Items<(NameId, u64)>,
    item: &Item,
    table: &Vec<u64>,
) -> Result<(), AllocError>
    requires { length table.now.items ≡ 65536 }
    ensures { (entries : List Entry) → ((k : ℕ) → k < 65536 → slice_index table.now.items k ≡ times entries k)
        → OnOk result (out.new ≡ out.old ++ map (times_acquired entries) (mutexes_in (item.now ∷ []))) }
{
    match mutex_of(item) {
        Some(name) => out.push((name, table[name.0 as usize])),
        None => Ok(()),
    }
}

/// The declared mutexes, each with how often a thread got it.
pub(crate) fn acquired(
    alloc: Global,
    items: &[Item],
    entries: &[Entry],
) -> Result<Items<(NameId, u64)>, NoMemory>
    ensures { IfOk result (λ v. v ≡ map (times_acquired entries.now) (mutexes_in items.now)) }
{
    let table = gains(alloc, entries, NAMES)?;
    let mut out = Items::new(alloc);
    for item in items {
        match add_mutex(&mut out, item, &table) {
            Ok(()) => {}
            Err(_) => return Err(NoMemory),
        }
    }
    Ok(out)
}
