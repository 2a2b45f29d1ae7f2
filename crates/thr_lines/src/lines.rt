//! The lines of a script.

ghost use Rattle.std.specs.Prelude.{◌≡◌, ℕ, ◌-◌, ◌≤◌, Some, slice_get, length, IfOk, IfSome};
ghost use Rattle.std.specs.Option.{option_map};
ghost use Rattle.thr_remainder.specs.Declarations.{exception_of, routine_of};
ghost use Rattle.thr_remainder.specs.Starts.{at};
ghost use Rattle.thr_syntax.specs.Lines.{lines_of};
ghost use Rattle.thr_lines.specs.Layout.{line_at, last_line};
ghost use Rattle.thr_lines.specs.AtLines.{RowAt, StartsAt};
ghost use Rattle.thr_lines.specs.Tables.{start_of};

use crate::names::Names;
use crate::row::Row;
use crate::rows::Rows;
use crate::script::flatten;
use crate::start::Start;
use std::alloc::Global;
use std::marker::Model;
use thr_syntax::tree::Script;
use thr_values::exception::Exc;
use thr_values::number::{Line, NameId, NoMemory};

/// The lines of a script, each with its row. Contracts see the script (docs/machine.md, "The lines of a script").
#[derive(Drop)]
pub struct Lines {
    script: Script,
    rows: Rows,
    names: Names,
}

impl Model for Lines {
    ghost use Rattle.std.specs.Prelude.{◌≡◌};
    ghost use Rattle.thr_syntax.specs.declared.tree.Script.{Script};
    ghost use Rattle.thr_syntax.specs.contracts.tree.Stmt as stmt;
    ghost use Rattle.thr_syntax.specs.contracts.expr.Expr as expr;
    ghost use Rattle.thr_values.specs.declared.number.NameId.{NameId};
    ghost use Rattle.thr_remainder.specs.Declarations.{exception_in};
    ghost use Rattle.thr_lines.specs.Layout.{script_rows};
    ghost use Rattle.thr_lines.specs.Tables.{found, routine_start};
    ghost use Rattle.std.specs.Coded.{codes};

    ghost Value = { Script };

    ghost coded = { Prim.hlevel (codes, stmt.the_row.coded, expr.the_row.coded) };

    ghost view = { λ a. a.script };

    ghost invariant = { λ a. record {
      rows : a.rows ≡ script_rows a.script;
      routines : (k : NameId) → found a.names.routines.slots.items k.0 ≡ routine_start a.script k;
      exceptions : (k : NameId) → found a.names.exceptions.slots.items k.0 ≡ exception_in a.script.items k;
    } };
}

impl Lines {
    /// The lines of this script. The time is linear in the lines.
    pub fn build(alloc: Global, script: Script) -> Result<Lines, NoMemory>
        ensures { IfOk result (λ lines. lines ≡ script) }
    {
        let (rows, names) = flatten(alloc, &script).map_err(|_| NoMemory)?;
        Ok(Lines {
            script,
            rows,
            names,
        })
    }

    /// The script of which these are the lines.
    pub fn script(&self) -> &Script
        ensures { result.now ≡ self.now }
    {
        &self.script
    }

    /// The script, which is given back where its lines are wanted no longer.
    pub fn into_script(self) -> Script
        ensures { result ≡ self }
    {
        self.script
    }

    /// How many lines there are, from line 1 on.
    pub fn len(&self) -> u32
        ensures count { result ≡ length (lines_of self.now) }
        ensures last { result ≡ last_line self.now }
        ensures small { result ≤ 4000000000 }
    {
        self.rows.len()
    }

    /// The row of a line.
    pub fn row(&self, l: Line) -> &Row
        requires from { 1 ≤ l.0 }
        requires to { l.0 ≤ last_line self.now }
        ensures row { result.now ≡ (line_at self.now l.0).row }
        ensures form { slice_get (lines_of self.now) (l.0 - 1) ≡ Some result.now.form }
        ensures at { RowAt (line_at self.now) (last_line self.now) l.0 result.now }
    {
        self.rows.get(l.0 - 1)
    }

    /// Where a routine starts; None exactly where no routine has the name.
    pub fn start(&self, name: NameId) -> Option<Start>
        ensures start { result ≡ option_map start_of (routine_of self.now name) }
        ensures body { IfSome result (StartsAt self.now name) }
    {
        self.names.routines.get(name)
    }

    /// The line of a routine; None exactly where no routine has the name.
    pub fn routine(&self, name: NameId) -> Option<Line>
        ensures { result ≡ option_map (λ entry. at entry.line) (routine_of self.now name) }
    {
        match self.names.routines.get(name) {
            Some(start) => Some(start.line),
            None => None,
        }
    }

    /// The exception that a name stands for, built in or declared; None exactly where the name is no exception.
    pub fn exception(&self, name: NameId) -> Option<Exc>
        ensures { result ≡ exception_of self.now name }
    {
        if name.0 < 10 {
            return Some(Exc::Address(name));
        }
        self.names.exceptions.get(name)
    }
}
