//! The rows of statements, one after another. A block leaves a place for its first row, which is filled in when the block's
//! lines are made and its end is known.

ghost use Rattle.std.specs.Prelude.{◌≡◌, ◌+◌, ◌<◌, ◌≤◌, [], ◌∷◌, ◌++◌, Option, None, Some, length, slice_set, OnOk, IfOk, take};
ghost use Rattle.thr_syntax.specs.declared.form.Form.TheVariants as Form;
ghost use Rattle.thr_syntax.specs.Lines.{clause_form};
ghost use Rattle.thr_remainder.specs.Starts.{at};
ghost use Rattle.thr_lines.specs.Layout.{stmt_rows, body_rows, clause_rows};
ghost use Rattle.thr_lines.specs.Rows as rows_of;

use crate::row::Row;
use crate::rows::Rows;
use std::alloc::{AllocError, Global};
use thr_syntax::form::Form;
use thr_syntax::tree::{Clause, Stmt};
use thr_values::number::{Line, NameId};

/// A row that belongs to no other.
pub fn plain_row(form: Form) -> Row
    ensures { result ≡ rows_of.plain_row form }
{
    Row {
        form,
        partner: None,
        next: None,
        after: None,
    }
}

/// The form of a clause's line.
fn form_of_clause(names: Option<NameId>) -> Form
    ensures { result ≡ clause_form names }
{
    match names {
        Some(name) => Form::Catch(name),
        None => Form::CatchAll,
    }
}

/// Leaves a place for a row.
fn leave_place(rows: &mut Rows) -> Result<u32, AllocError>
    ensures place { IfOk result (λ place. place ≡ length rows.old) }
    ensures row { OnOk result (rows.new ≡ rows.old ++ rows_of.plain_row Form.Else ∷ []) }
{
    let place = rows.len();
    rows.push(plain_row(Form::Else))?;
    Ok(place)
}

/// Closes the block that begins at this place and whose next part begins at the line `next`.
fn close_at(
    rows: &mut Rows,
    place: u32,
    next: u32,
    opener: Form,
    closer: Form,
) -> Result<(), AllocError>
    requires { place < length rows.old }
    ensures { OnOk result (rows.new ≡ rows_of.closed rows.old place next opener closer) }
{
    let end = rows.len() + 1;
    let after = Some(Line(end + 1));
    rows.fill(
        place,
        Row {
            form: opener,
            partner: Some(Line(end)),
            next: Some(Line(next)),
            after,
        },
    );
    rows.push(Row {
        form: closer,
        partner: Some(Line(place + 1)),
        next: None,
        after,
    })
}

/// Closes a block of one body that begins at this place.
fn close_block(rows: &mut Rows, place: u32, opener: Form, closer: Form) -> Result<(), AllocError>
    requires { place < length rows.old }
    ensures { OnOk result (rows.new ≡ rows_of.closed rows.old place (length rows.old + 1) opener closer) }
{
    let end = rows.len() + 1;
    close_at(rows, place, end, opener, closer)
}

/// Closes a block in two halves, where the place `half` was left for its `else` or `finally`.
fn close_halves(
    rows: &mut Rows,
    place: u32,
    half: u32,
    opener: Form,
    middle: Form,
    closer: Form,
) -> Result<(), AllocError>
    requires place { place < length rows.old }
    requires half { half < length rows.old }
    ensures { OnOk result (rows.new ≡ rows_of.closed_halves rows.old place half opener middle closer) }
{
    let end = rows.len() + 1;
    rows.fill(
        half,
        Row {
            form: middle,
            partner: None,
            next: Some(Line(end)),
            after: Some(Line(end + 1)),
        },
    );
    close_at(rows, place, half + 1, opener, closer)
}

/// Sets the line after a try in the rows of its clauses, the first of which stands at this place.
fn set_after(rows: &mut Rows, half: u32, clauses: &[Clause], after: Line)
    requires within { half ≤ length rows.old }
    requires made { rows.old ≡ take half rows.old ++ clause_rows (half + 1) clauses.now None }
    ensures { rows.new ≡ take half rows.old ++ clause_rows (half + 1) clauses.now (Some after) }
{
    let mut place = half;
    for i in 0..clauses.len() {
        place = rows.set_after(place, after);
    }
}

/// Closes a try that begins at this place, with clauses the first of which stands at the place `half`.
fn close_try(rows: &mut Rows, place: u32, half: u32, clauses: &[Clause]) -> Result<(), AllocError>
    requires place { place < length rows.old }
    requires within { half ≤ length rows.old }
    requires made { rows.old ≡ take half rows.old ++ clause_rows (half + 1) clauses.now None }
    ensures { OnOk result (rows.new ≡ rows_of.closed (take half rows.old ++ clause_rows (half + 1) clauses.now (Some (at (length rows.old + 2))))
        place (half + 1) Form.Try Form.Endtry) }
{
    let after = rows.len() + 2;
    set_after(rows, half, clauses, Line(after));
    close_at(rows, place, half + 1, Form::Try, Form::Endtry)
}

/// The rows of a body.
#[cycle(statements)]
pub fn add_body(alloc: Global, rows: &mut Rows, body: &[Stmt]) -> Result<(), AllocError>
    ensures { OnOk result (rows.new ≡ rows.old ++ body_rows (length rows.old + 1) body.now) }
{
    for stmt in body {
        add_stmt(alloc, rows, stmt)?;
    }
    Ok(())
}

/// The rows of clauses. The line after their try is set later.
#[cycle(statements)]
fn add_clauses(alloc: Global, rows: &mut Rows, clauses: &[Clause]) -> Result<(), AllocError>
    ensures { OnOk result (rows.new ≡ rows.old ++ clause_rows (length rows.old + 1) clauses.now None) }
{
    for clause in clauses {
        let place = leave_place(rows)?;
        add_body(alloc, rows, clause.body.as_slice())?;
        let next = Some(Line(rows.len() + 1));
        rows.fill(
            place,
            Row {
                form: form_of_clause(clause.names),
                partner: None,
                next,
                after: None,
            },
        );
    }
    Ok(())
}

/// The rows of a statement.
#[cycle(statements)]
#[tactic(auto, using(crate::proofs::RowLaws::plain_rows))]
fn add_stmt(alloc: Global, rows: &mut Rows, stmt: &Stmt) -> Result<(), AllocError>
    ensures { OnOk result (rows.new ≡ rows.old ++ stmt_rows (length rows.old + 1) stmt.now) }
{
    match stmt {
        Stmt::Set(v, e) => rows.push(plain_row(Form::Set(*v, e.copy(alloc)?))),
        Stmt::Say(e) => rows.push(plain_row(Form::Say(e.copy(alloc)?))),
        Stmt::If(e, body, other) => {
            let place = leave_place(rows)?;
            add_body(alloc, rows, body.as_slice())?;
            match other {
                None => close_block(rows, place, Form::If(e.copy(alloc)?), Form::End),
                Some(other) => {
                    let half = leave_place(rows)?;
                    add_body(alloc, rows, other.as_slice())?;
                    close_halves(
                        rows,
                        place,
                        half,
                        Form::If(e.copy(alloc)?),
                        Form::Else,
                        Form::End,
                    )
                }
            }
        }
        Stmt::While(e, body) => {
            let place = leave_place(rows)?;
            add_body(alloc, rows, body.as_slice())?;
            close_block(rows, place, Form::While(e.copy(alloc)?), Form::End)
        }
        Stmt::TryCatch(body, clauses) => {
            let place = leave_place(rows)?;
            add_body(alloc, rows, body.as_slice())?;
            let half = rows.len();
            add_clauses(alloc, rows, clauses.as_slice())?;
            close_try(rows, place, half, clauses.as_slice())
        }
        Stmt::TryFinally(body, last) => {
            let place = leave_place(rows)?;
            add_body(alloc, rows, body.as_slice())?;
            let half = leave_place(rows)?;
            add_body(alloc, rows, last.as_slice())?;
            close_halves(rows, place, half, Form::Try, Form::Finally, Form::Endtry)
        }
        Stmt::Raise(name) => rows.push(plain_row(Form::Raise(*name))),
        Stmt::Reraise => rows.push(plain_row(Form::Reraise)),
        Stmt::Call(name, e, v) => rows.push(plain_row(Form::Call(*name, e.copy(alloc)?, *v))),
        Stmt::Return(e) => rows.push(plain_row(Form::Return(e.copy(alloc)?))),
        Stmt::Exit(e) => rows.push(plain_row(Form::Exit(e.copy(alloc)?))),
        Stmt::Dce(call) => rows.push(plain_row(Form::Dce(call.copy(alloc)?))),
    }
}
