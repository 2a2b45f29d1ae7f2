//! A table by names: a slot for each.
ghost use Rattle.std.specs.Prelude.{◌≡◌, IfOk, IfNone, is_some, vec_len, option_copied};
ghost use Rattle.thr_parts.specs.Tables.{none, get, has, put, cut};
ghost use Rattle.thr_tables.specs.Ranges.{IsName};

use std::alloc::Global;
use std::marker::Model;
use std::mem;
use thr_values::number::{NameId, NoMemory};

/// How many names there can be: the ten built-in exceptions and 1,000 declared names.
const NAMES: usize = 1010;

/// What stands at each name (docs/machine.md, "Tables").
#[derive(Drop)]
pub struct Slots<T> {
    items: Vec<Option<T>>,
}

impl<T> Model for Slots<T> {
    ghost use Rattle.std.specs.Prelude.{◌≡◌, vec_len};
    ghost use Rattle.thr_parts.specs.Tables.{Table, names, present};

    ghost Value = { Table T };

    ghost view = { λ a. present 0 a.items.items };

    ghost invariant = { λ a. vec_len a.items ≡ names };
}

impl<T: Drop> Slots<T> {
    /// Nothing stands anywhere.
    pub fn new(alloc: Global) -> Result<Slots<T>, NoMemory>
        ensures { IfOk result (λ slots. slots ≡ none) }
    {
        let mut items = match Vec::with_capacity(alloc, NAMES) {
            Ok(items) => items,
            Err(_) => return Err(NoMemory),
        };
        while items.len() < NAMES {
            items.push_reserved(None);
        }
        Ok(Slots { items })
    }

    /// What stands at the name, lent.
    pub fn lend(&self, name: NameId) -> Option<&T>
        requires known { IsName name }
        ensures value { option_copied result ≡ get self.now name.0 }
        ensures known { is_some result ≡ has self.now name.0 }
    {
        self.items[name.0 as usize].as_ref()
    }

    /// The value stands at the name from now on.
    pub fn put(&mut self, name: NameId, value: T)
        requires known { IsName name }
        ensures { self.new ≡ put self.old name.0 value }
    {
        self.items[name.0 as usize] = Some(value);
    }

    /// Nothing stands at the name from now on, and the answer is what stood there. Where nothing did the table stays. So a
    /// value is changed that isn't `Copy`: it is taken, changed and put back.
    pub fn take(&mut self, name: NameId) -> Option<T>
        requires known { IsName name }
        ensures value { result ≡ get self.old name.0 }
        ensures known { is_some result ≡ has self.old name.0 }
        ensures table { self.new ≡ cut self.old name.0 }
        ensures absent { IfNone result (self.new ≡ self.old) }
        ensures back { (v : T) → put self.new name.0 v ≡ put self.old name.0 v }
    {
        mem::replace(&mut self.items[name.0 as usize], None)
    }

    /// Nothing stands at the name from now on.
    pub fn cut(&mut self, name: NameId)
        requires known { IsName name }
        ensures { self.new ≡ cut self.old name.0 }
    {
        self.items[name.0 as usize] = None;
    }
}

impl<T: Copy> Slots<T> {
    /// What stands at the name.
    pub fn get(&self, name: NameId) -> Option<T>
        requires known { IsName name }
        ensures value { result ≡ get self.now name.0 }
        ensures known { is_some result ≡ has self.now name.0 }
    {
        self.items[name.0 as usize]
    }
}
