//! What the names of a script stand for.

ghost use Rattle.std.specs.Prelude.{◌≡◌, ◌+◌, ◌≤◌, OnOk, None, length};
ghost use Rattle.std.specs.Option.{option_or};
ghost use Rattle.thr_values.specs.declared.number.NameId.{NameId};
ghost use Rattle.thr_syntax.specs.Lines.{item_lines};
ghost use Rattle.thr_remainder.specs.Declarations.{exception_here};
ghost use Rattle.thr_lines.specs.Tables.{found, start_here};

use crate::start::Start;
use crate::table::Table;
use std::alloc::{AllocError, Global};
use thr_syntax::tree::Item;
use thr_values::exception::Exc;
use thr_values::number::Line;

/// Where routines start, and what exceptions stand for, without those that are built in.
#[derive(Drop)]
pub struct Names {
    pub routines: Table<Start>,
    pub exceptions: Table<Exc>,
}

impl Names {
    /// No name stands for anything yet.
    pub fn new(alloc: Global) -> Names
        ensures routines { (k : NameId) → found result.routines.slots.items k.0 ≡ None }
        ensures exceptions { (k : NameId) → found result.exceptions.slots.items k.0 ≡ None }
    {
        Names {
            routines: Table::new(alloc),
            exceptions: Table::new(alloc),
        }
    }

    /// Takes a declaration, which has the lines from `line` to `last`.
    pub fn note(&mut self, item: &Item, line: u32, last: u32) -> Result<(), AllocError>
        requires { line + length (item_lines item.now) ≡ last + 1 }
        ensures routines { OnOk result ((k : NameId) → found self.new.routines.slots.items k.0
            ≡ option_or (found self.old.routines.slots.items k.0) (start_here line item.now k)) }
        ensures exceptions { OnOk result ((k : NameId) → found self.new.exceptions.slots.items k.0
            ≡ option_or (found self.old.exceptions.slots.items k.0) (exception_here item.now k)) }
    {
        match item {
            Item::Exception(name) => self.exceptions.note(*name, Exc::Address(*name)),
            Item::Status(name, n) => self.exceptions.note(*name, Exc::Status(*n)),
            Item::Routine(routine) => {
                let locals = routine.locals.len() as u32;
                let start = Start {
                    line: Line(line),
                    body: Line(line + locals),
                    close: Line(last),
                };
                self.routines.note(routine.name, start)
            }
            Item::Interface(_)
            | Item::Limit(_)
            | Item::Shared(_, _)
            | Item::Mutex(_)
            | Item::MutexAttr(_)
            | Item::Cond(_)
            | Item::Attr(_)
            | Item::Key(_)
            | Item::Once(_)
            | Item::Pipe(_, _) => Ok(()),
        }
    }
}
