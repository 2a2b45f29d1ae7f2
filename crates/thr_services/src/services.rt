//! The thread service.
ghost use Rattle.std.specs.Prelude.{◌≡◌, ◌≤◌, ℤ, IfOk, OnOk, OnErr};
ghost use Rattle.thr_remainder.specs.Remainders.{Remainder};
ghost use Rattle.thr_parts.specs.Tables.{Table};
ghost use Rattle.thr_pipes.specs.Opening.{FitTables};
ghost use Rattle.thr_services.specs.Views.{state_with, opened};

use crate::debts::Debts;
use std::alloc::Global;
use std::marker::Model;
use thr_conds::Conds;
use thr_locks::Locks;
use thr_once::Onces;
use thr_parts::row::RowId;
use thr_pipes::Pipes;
use thr_rows::Rows;
use thr_syntax::tree::Item;
use thr_threads::Threads;
use thr_values::number::{NoMemory, Tid};

/// Threads and all objects of the service, what threads owe, and the clock (docs/machine.md, "The state").
#[derive(Drop)]
pub struct Services {
    pub(crate) threads: Threads,
    pub(crate) rows: Rows,
    pub(crate) locks: Locks,
    pub(crate) conds: Conds,
    pub(crate) onces: Onces,
    pub(crate) pipes: Pipes,
    pub(crate) debts: Debts,
    pub(crate) clock: i64,
}

impl Model for Services {
    ghost use Rattle.thr_services.specs.Views.{ServicesView};

    ghost Value = { ServicesView };

    ghost view = { λ a. record {
      threads = a.threads;
      debts = a.debts;
      rows = a.rows;
      locks = a.locks;
      conds = a.conds;
      onces = a.onces;
      pipes = a.pipes;
      clock = a.clock;
    } };
}

impl Services {
    /// Thread 1 is ready, and nothing is made but the declared pipes. All memory is taken here but that for values of keys.
    pub fn new(alloc: Global, items: &[Item]) -> Result<Services, NoMemory>
        requires known { FitTables items.now }
        ensures { IfOk result (λ v. (remainders : Table Remainder) (shared : Table ℤ)
            → state_with v remainders shared ≡ opened items.now remainders shared) }
    {
        let threads = Threads::new(alloc)?;
        let mut rows = Rows::new(alloc)?;
        let locks = Locks::new(alloc)?;
        let conds = Conds::new(alloc)?;
        let onces = Onces::new(alloc)?;
        let pipes = Pipes::new(alloc, items)?;
        let debts = Debts::new(alloc)?;
        rows.put(RowId::Ready, Tid(1), threads.rank(Tid(1)));
        Ok(Services {
            threads,
            rows,
            locks,
            conds,
            onces,
            pipes,
            debts,
            clock: 0,
        })
    }

    /// Gives room for one value of a key more, which `pthread_setspecific` needs. Where it is refused nothing changes.
    pub fn make_room(&mut self) -> Result<(), NoMemory>
        ensures room { OnOk result (1 ≤ self.new.onces.room) }
        ensures same { (remainders : Table Remainder) (shared : Table ℤ)
            → state_with self.new remainders shared ≡ state_with self.old remainders shared }
        ensures refused { OnErr result (self.new ≡ self.old) }
    {
        self.onces.make_room()
    }
}
