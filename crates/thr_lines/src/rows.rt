//! Rows while they are made.

ghost use Rattle.std.specs.Prelude.{◌≡◌, ◌<◌, ◌≤◌, ◌+◌, [], ◌∷◌, ◌++◌, length, slice_set, OnOk, Some};
ghost use Rattle.thr_lines.specs.Rows.{HasNext, row_at, with_after};
ghost use Rattle.thr_remainder.specs.Starts.{at};

use crate::row::Row;
use std::alloc::{AllocError, Global};
use std::marker::Model;
use thr_values::number::Line;

/// How many rows there can be, so that the lines after them have numbers. A script has at most 20,000 lines.
const MOST: usize = 4_000_000_000;

/// The rows of the first lines of a script. Contracts see the list of rows.
#[derive(Drop)]
pub struct Rows {
    rows: Vec<Row>,
}

impl Model for Rows {
    ghost use Rattle.std.specs.Prelude.{List, ◌≤◌, length};
    ghost use Rattle.thr_lines.specs.declared.row.Row.{Row};
    ghost use Rattle.thr_syntax.specs.contracts.expr.Expr as expr;
    ghost use Rattle.std.specs.Coded.{codes};

    ghost Value = { List Row };

    ghost coded = { Prim.hlevel (codes, expr.the_row.coded) };

    ghost view = { λ a. a.rows.items };

    ghost invariant = { λ a. length a.rows.items ≤ 4000000000 };
}

impl Rows {
    /// No rows yet.
    pub fn new(alloc: Global) -> Rows
        ensures { result ≡ [] }
    {
        Rows {
            rows: Vec::new(alloc),
        }
    }

    /// How many rows there are.
    pub fn len(&self) -> u32
        ensures count { result ≡ length self.now }
        ensures small { result ≤ 4000000000 }
    {
        self.rows.len() as u32
    }

    /// Adds a row at the end. A row too many is answered like want of memory.
    pub fn push(&mut self, row: Row) -> Result<(), AllocError>
        ensures { OnOk result (self.new ≡ self.old ++ row ∷ []) }
    {
        if self.rows.len() >= MOST {
            return Err(AllocError);
        }
        self.rows.push(row)?;
        Ok(())
    }

    /// Puts a row at this place, counted from 0.
    pub fn fill(&mut self, place: u32, row: Row)
        requires { place < length self.old }
        ensures { self.new ≡ slice_set self.old place row }
    {
        self.rows[place as usize] = row;
    }

    /// Sets the line after the block of the clause at this place, and answers the place of the next clause or of the end.
    pub fn set_after(&mut self, place: u32, after: Line) -> u32
        requires { HasNext self.old place }
        ensures rows { self.new ≡ with_after self.old place after }
        ensures next { (row_at self.old place).next ≡ Some (at (result + 1)) }
    {
        let row = &mut self.rows[place as usize];
        row.after = Some(after);
        match row.next {
            Some(line) => line.0 - 1,
            None => unreachable!(),
        }
    }

    /// The row at this place, counted from 0.
    pub fn get(&self, place: u32) -> &Row
        requires { place < length self.now }
        ensures { result.now ≡ row_at self.now place }
    {
        &self.rows[place as usize]
    }
}
