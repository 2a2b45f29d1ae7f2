//! The values of shared variables.

ghost use Rattle.std.specs.Prelude.{◌≡◌, ◌<◌, IfOk};
ghost use Rattle.thr_parts.specs.Tables.{none, get, put, names};
ghost use Rattle.thr_model.specs.States.{declared_values};
ghost use Rattle.thr_shared.specs.Shared.{FitTables, values_in, shared_of};
ghost use Rattle.thr_values.specs.declared.number.NameId.{NameId};

use std::alloc::Global;
use std::marker::Model;
use thr_syntax::tree::Item;
use thr_tables::Slots;
use thr_values::number::{NameId, NoMemory};

/// How many names a script has at most.
const NAMES: usize = 1010;

/// The values of shared variables, which contracts see as the machine's table of them. Expressions read them from a slice by
/// the numbers of names, in which every other name has 0.
#[derive(Drop)]
pub struct SharedVariables {
    declared: Slots<i64>,
    values: Vec<i64>,
}

impl Model for SharedVariables {
    ghost use Rattle.std.specs.Prelude.{◌≡◌, ℤ, length};
    ghost use Rattle.thr_values.specs.declared.number.NameId.{NameId};
    ghost use Rattle.thr_parts.specs.Tables.{Table, names};
    ghost use Rattle.thr_shared.specs.Shared.{values_in, shared_of};

    ghost Value = { Table ℤ };

    ghost view = { λ a. a.declared };

    ghost invariant = { λ a. (length a.values.items ≡ names) × ((name : NameId) → shared_of a.values.items name ≡ values_in a.declared name) };
}

impl SharedVariables {
    /// The variables with the values that these declarations declare.
    pub fn new(alloc: Global, items: &[Item]) -> Result<SharedVariables, NoMemory>
        requires { FitTables items.now }
        ensures { IfOk result (λ shared. shared ≡ declared_values items.now) }
    {
        let mut shared = SharedVariables::none(alloc)?;
        let mut i = items.len();
        while i > 0 {
            i -= 1;
            if let Item::Shared(name, value) = &items[i] {
                shared.put(*name, *value);
            }
        }
        Ok(shared)
    }

    /// No variable is declared.
    fn none(alloc: Global) -> Result<SharedVariables, NoMemory>
        ensures { IfOk result (λ shared. shared ≡ none) }
    {
        let declared = Slots::new(alloc)?;
        let values = match vec![in alloc; 0; NAMES] {
            Ok(values) => values,
            Err(_) => return Err(NoMemory),
        };
        Ok(SharedVariables { declared, values })
    }

    /// The values by the numbers of names, as expressions read them.
    pub fn values(&self) -> &[i64]
        ensures { (name : NameId) → shared_of result.now name ≡ values_in self.now name }
    {
        self.values.as_slice()
    }

    /// The value of a shared variable; None exactly where the name is none.
    pub fn get(&self, name: NameId) -> Option<i64>
        requires { name.0 < names }
        ensures { result ≡ get self.now name.0 }
    {
        self.declared.get(name)
    }

    /// The variable has this value from now on.
    pub fn put(&mut self, name: NameId, value: i64)
        requires { name.0 < names }
        ensures { self.new ≡ put self.old name.0 value }
    {
        self.declared.put(name, value);
        self.values[name.0 as usize] = value;
    }
}
