//! The rows of declarations and of a script.

ghost use Rattle.std.specs.Prelude.{◌≡◌, ◌+◌, ◌<◌, ◌≤◌, [], ◌∷◌, ◌++◌, Option, None, Some, length, slice_set, OnOk, IfOk};
ghost use Rattle.std.specs.Option.{option_or};
ghost use Rattle.thr_values.specs.declared.number.NameId.{NameId};
ghost use Rattle.thr_syntax.specs.Lines.{item_lines};
ghost use Rattle.thr_syntax.specs.declared.tree.Item.TheVariants as Item;
ghost use Rattle.thr_remainder.specs.Starts.{at};
ghost use Rattle.thr_remainder.specs.Declarations.{exception_in};
ghost use Rattle.thr_lines.specs.Layout.{item_rows, items_rows, script_rows};
ghost use Rattle.thr_lines.specs.Rows as rows_of;
ghost use Rattle.thr_lines.specs.Tables.{found, start_in, routine_start};

use crate::build::{add_body, plain_row};
use crate::names::Names;
use crate::row::Row;
use crate::rows::Rows;
use std::alloc::{AllocError, Global};
use thr_syntax::form::Form;
use thr_syntax::tree::{Item, Routine, Script};
use thr_values::name::Name;
use thr_values::number::Line;

/// A row for each of these, a routine's parameter and locals. The parameter's row is replaced by that of the routine's line.
fn add_locals(rows: &mut Rows, locals: &[Name]) -> Result<(), AllocError>
    ensures { OnOk result (rows.new ≡ rows.old ++ rows_of.local_rows locals.now) }
{
    for name in locals {
        rows.push(plain_row(Form::Local(name.clone()?)))?;
    }
    Ok(())
}

/// This line, where there is more.
fn line_if(more: bool, line: u32) -> Option<Line>
    ensures { result ≡ rows_of.line_if more line }
{
    if more { Some(Line(line)) } else { None }
}

/// The rows of a routine. Whether a declaration stands after it is `more`.
fn add_routine(
    alloc: Global,
    rows: &mut Rows,
    routine: &Routine,
    more: bool,
) -> Result<(), AllocError>
    ensures { OnOk result (rows.new ≡ rows.old ++ item_rows (length rows.old + 1) (Item.Routine routine.now)
        (rows_of.line_if more (length rows.old + 1 + length (item_lines (Item.Routine routine.now))))) }
{
    let place = rows.len();
    add_locals(rows, routine.locals.as_slice())?;
    add_body(alloc, rows, routine.body.as_slice())?;
    let end = rows.len() + 1;
    let after = line_if(more, end + 1);
    let Some((parameter, _)) = routine.locals.as_slice().split_first() else {
        return rows.push(Row {
            form: Form::End,
            partner: None,
            next: None,
            after,
        });
    };
    let row = Row {
        form: Form::Routine(routine.name, parameter.clone()?),
        partner: Some(Line(end)),
        next: Some(Line(end)),
        after,
    };
    rows.fill(place, row);
    rows.push(Row {
        form: Form::End,
        partner: Some(Line(place + 1)),
        next: None,
        after,
    })
}

/// The rows of a declaration. Whether another stands after it is `more`.
#[tactic(auto, unfolding(crate::specs::Layout::item_rows))]
fn add_item(alloc: Global, rows: &mut Rows, item: &Item, more: bool) -> Result<(), AllocError>
    ensures { OnOk result (rows.new ≡ rows.old ++ item_rows (length rows.old + 1) item.now
        (rows_of.line_if more (length rows.old + 1 + length (item_lines item.now)))) }
{
    match item {
        Item::Interface(i) => rows.push(plain_row(Form::Interface(*i))),
        Item::Limit(n) => rows.push(plain_row(Form::Limit(*n))),
        Item::Shared(name, n) => rows.push(plain_row(Form::Shared(*name, *n))),
        Item::Exception(name) => rows.push(plain_row(Form::Exception(*name))),
        Item::Status(name, n) => rows.push(plain_row(Form::Status(*name, *n))),
        Item::Mutex(name) => rows.push(plain_row(Form::Mutex(*name))),
        Item::MutexAttr(name) => rows.push(plain_row(Form::MutexAttr(*name))),
        Item::Cond(name) => rows.push(plain_row(Form::Cond(*name))),
        Item::Attr(name) => rows.push(plain_row(Form::Attr(*name))),
        Item::Key(name) => rows.push(plain_row(Form::Key(*name))),
        Item::Once(name) => rows.push(plain_row(Form::Once(*name))),
        Item::Pipe(name, n) => rows.push(plain_row(Form::Pipe(*name, *n))),
        Item::Routine(routine) => add_routine(alloc, rows, routine, more),
    }
}

/// The rows of declarations, and what their names stand for.
fn add_items(
    alloc: Global,
    rows: &mut Rows,
    names: &mut Names,
    items: &[Item],
) -> Result<(), AllocError>
    ensures rows { OnOk result (rows.new ≡ rows.old ++ items_rows (length rows.old + 1) items.now) }
    ensures routines { OnOk result ((k : NameId) → found names.new.routines.slots.items k.0
        ≡ option_or (found names.old.routines.slots.items k.0) (start_in (length rows.old + 1) items.now k)) }
    ensures exceptions { OnOk result ((k : NameId) → found names.new.exceptions.slots.items k.0
        ≡ option_or (found names.old.exceptions.slots.items k.0) (exception_in items.now k)) }
{
    for i in 0..items.len() {
        let item = &items[i];
        let line = rows.len() + 1;
        add_item(alloc, rows, item, i + 1 < items.len())?;
        names.note(item, line, rows.len())?;
    }
    Ok(())
}

/// The rows of a script, and what its names stand for.
pub fn flatten(alloc: Global, script: &Script) -> Result<(Rows, Names), AllocError>
    ensures rows { IfOk result (λ made. made.0 ≡ script_rows script.now) }
    ensures routines { IfOk result (λ made. (k : NameId) → found made.1.routines.slots.items k.0 ≡ routine_start script.now k) }
    ensures exceptions { IfOk result (λ made. (k : NameId) → found made.1.exceptions.slots.items k.0 ≡ exception_in script.now.items k) }
{
    let mut rows = Rows::new(alloc);
    let mut names = Names::new(alloc);
    rows.push(plain_row(Form::Header))?;
    add_items(alloc, &mut rows, &mut names, script.items.as_slice())?;
    Ok((rows, names))
}
