//! Threads that were given a mutex, or the global lock.
ghost use Rattle.std.specs.Prelude.{◌≡◌, ◌<◌, ◌∷◌, [], ◌++◌, length, IfOk};
ghost use Rattle.thr_parts.specs.Rows.{most};

use std::alloc::Global;
use std::marker::Model;
use thr_values::number::{NameId, NoMemory, Tid};

/// How many threads one call can give a mutex.
const MOST: usize = 1024;

/// Threads that were given a mutex, or the global lock, in their order (docs/machine.md, "Mutexes"). There is room for all
/// threads from the opening on.
#[derive(Drop)]
pub struct Gifts {
    given: Vec<(Tid, Option<NameId>)>,
}

impl Model for Gifts {
    ghost use Rattle.std.specs.Prelude.{List, ◌≤◌, vec_len, vec_capacity};
    ghost use Rattle.std.specs.Prelude.{Option};
    ghost use Rattle.thr_values.specs.declared.number.Tid.{Tid};
    ghost use Rattle.thr_values.specs.declared.number.NameId.{NameId};
    ghost use Rattle.thr_parts.specs.Rows.{most};

    ghost Value = { List (Tid × Option NameId) };

    ghost view = { λ a. a.given.items };

    ghost invariant = { λ a. most ≤ vec_capacity a.given };
}

impl Gifts {
    /// Nobody was given anything.
    pub fn new(alloc: Global) -> Result<Gifts, NoMemory>
        ensures { IfOk result (λ gifts. gifts ≡ []) }
    {
        match Vec::with_capacity(alloc, MOST) {
            Ok(given) => Ok(Gifts { given }),
            Err(_) => Err(NoMemory),
        }
    }

    /// The threads with their mutexes, in their order.
    pub fn given(&self) -> &[(Tid, Option<NameId>)]
        ensures { result.now ≡ self.now }
    {
        self.given.as_slice()
    }

    /// Nobody was given anything, from now on.
    pub fn clear(&mut self)
        ensures { self.new ≡ [] }
    {
        self.given.clear();
    }

    /// This thread too was given this.
    pub fn give(&mut self, t: Tid, m: Option<NameId>)
        requires room { length self.old < most }
        ensures { self.new ≡ self.old ++ (t, m) ∷ [] }
    {
        self.given.push_reserved((t, m));
    }
}
