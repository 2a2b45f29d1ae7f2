//! The lines that a turn writes.

ghost use Rattle.std.specs.Prelude.{◌≡◌, ◌<◌, [], ◌∷◌, ◌++◌, length, IfOk};

use std::alloc::Global;
use std::marker::Model;
use thr_values::history::What;
use thr_values::number::NoMemory;

/// The lines that a turn has written. There is room for 136, which is enough for one turn (docs/machine.md, "Turns").
#[derive(Drop)]
pub struct Notes {
    lines: Vec<What>,
}

impl Model for Notes {
    ghost use Rattle.std.specs.Prelude.{List, ◌≤◌, length};
    ghost use Rattle.std.specs.Vec.{vec_capacity};
    ghost use Rattle.thr_values.specs.declared.history.What.{What};

    ghost Value = { List What };

    ghost view = { λ a. a.lines.items };

    ghost invariant = { λ a. 136 ≤ vec_capacity a.lines };
}

impl Notes {
    /// No line, with room for 136.
    pub fn new(alloc: Global) -> Result<Notes, NoMemory>
        ensures { IfOk result (λ notes. notes ≡ []) }
    {
        match Vec::with_capacity(alloc, 136) {
            Ok(lines) => Ok(Notes { lines }),
            Err(_) => Err(NoMemory),
        }
    }

    /// The lines written since the last `clear`, in their order.
    pub fn lines(&self) -> &[What]
        ensures { result.now ≡ self.now }
    {
        self.lines.as_slice()
    }

    /// Forgets the lines.
    pub fn clear(&mut self)
        ensures { self.new ≡ [] }
    {
        self.lines.clear();
    }

    /// Writes a line.
    pub fn push(&mut self, what: What)
        requires { length self.old < 136 }
        ensures { self.new ≡ self.old ++ what ∷ [] }
    {
        self.lines.push_reserved(what);
    }
}
