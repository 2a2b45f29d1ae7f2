//! Attribute cells that are made.
ghost use Rattle.std.specs.Prelude.{◌≡◌, is_some, IfOk, IfSome};
ghost use Rattle.thr_parts.specs.Tables.{none, get, has, put, cut};
ghost use Rattle.thr_tables.specs.Ranges.{IsName};
ghost use Rattle.thr_threads.specs.Records.{IsRight};

use std::alloc::Global;
use std::marker::Model;
use thr_parts::thread::Attr;
use thr_tables::Slots;
use thr_values::number::{NameId, NoMemory};

/// The cells that are made, by their names (docs/machine.md, "Attribute cells").
#[derive(Drop)]
pub struct Cells {
    slots: Slots<Attr>,
}

impl Model for Cells {
    ghost use Rattle.thr_parts.specs.declared.thread.Attr.{Attr};
    ghost use Rattle.thr_parts.specs.Tables.{Table};

    ghost Value = { Table Attr };

    ghost use Rattle.thr_threads.specs.Cells.{AreRight};

    ghost view = { λ a. a.slots };

    ghost invariant = { λ a. AreRight a.slots };
}

impl Cells {
    /// No cell is made.
    pub fn new(alloc: Global) -> Result<Cells, NoMemory>
        ensures { IfOk result (λ cells. cells ≡ none) }
    {
        let slots = Slots::new(alloc)?;
        Ok(Cells { slots })
    }

    /// The cell of the name.
    pub fn get(&self, a: NameId) -> Option<Attr>
        requires known { IsName a }
        ensures cell { result ≡ get self.now a.0 }
        ensures known { is_some result ≡ has self.now a.0 }
        ensures right { IfSome result (λ cell. IsRight cell.prio cell.frames) }
    {
        self.slots.get(a)
    }

    /// The name has this cell from now on.
    pub fn put(&mut self, a: NameId, cell: Attr)
        requires known { IsName a }
        requires right { IsRight cell.prio cell.frames }
        ensures { self.new ≡ put self.old a.0 cell }
    {
        self.slots.put(a, cell);
    }

    /// The name has no cell from now on.
    pub fn cut(&mut self, a: NameId)
        requires known { IsName a }
        ensures { self.new ≡ cut self.old a.0 }
    {
        self.slots.cut(a);
    }
}
