//! What threads owe.
ghost use Rattle.std.specs.Prelude.{◌≡◌, true, length, IfOk};
ghost use Rattle.thr_parts.specs.Tables.{none, get, put, cut, IsCanonical};
ghost use Rattle.thr_parts.specs.Rows.{most};
ghost use Rattle.thr_tables.specs.Places.{has_place};

use crate::debt::Debt;
use std::alloc::Global;
use std::marker::Model;
use thr_tables::Numbered;
use thr_values::number::{NoMemory, Tid};

/// How many threads can owe something.
const MOST: usize = 1024;

/// What each thread owes that owes something (docs/machine.md, "What threads owe").
#[derive(Drop)]
pub struct Debts {
    table: Numbered<Debt, MOST>,
}

impl Model for Debts {
    ghost use Rattle.thr_parts.specs.Tables.{Table};
    ghost use Rattle.thr_services.specs.declared.debt.Debt.{Debt};

    ghost Value = { Table Debt };

    ghost view = { λ a. a.table };
}

impl Debts {
    /// Nobody owes anything.
    pub fn new(alloc: Global) -> Result<Debts, NoMemory>
        ensures { IfOk result (λ debts. debts ≡ none) }
    {
        let table = Numbered::new(alloc)?;
        Ok(Debts { table })
    }

    /// How many threads owe something. Their numbers rise.
    pub fn len(&self) -> usize
        ensures len { result ≡ length self.now }
        ensures rises { IsCanonical self.now }
    {
        self.table.len()
    }

    /// What the thread owes.
    pub fn get(&self, t: Tid) -> Option<Debt>
        ensures { result ≡ get self.now t.0 }
    {
        self.table.get(t)
    }

    /// The thread owes this from now on.
    pub fn owe(&mut self, t: Tid, debt: Debt)
        requires room { has_place self.old t.0 most ≡ true }
        ensures { self.new ≡ put self.old t.0 debt }
    {
        self.table.put(t, debt);
    }

    /// The thread owes nothing from now on.
    pub fn clear(&mut self, t: Tid)
        ensures { self.new ≡ cut self.old t.0 }
    {
        self.table.cut(t);
    }
}
