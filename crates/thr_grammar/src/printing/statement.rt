//! The lines of statements, with those of the statements in them.

ghost use Rattle.std.specs.Prelude.{◌≡◌, ◌++◌, OnOk};
ghost use Rattle.thr_syntax.specs.Lines.{stmt_lines, body_lines, clause_form};
ghost use Rattle.thr_syntax.specs.Spelling.{form_words};
ghost use Rattle.thr_syntax.specs.Canon.{line};
ghost use Rattle.thr_grammar.specs.Printing.{scope_of, lines_text, clauses_lines};

use crate::printing::call::add_dce;
use crate::printing::line::{add_bare, add_call_line, add_value, add_with, add_with_value};
use crate::printing::scope::Scope;
use std::alloc::AllocError;
use thr_syntax::tree::{Clause, Stmt};
use thr_text::head::Head;
use thr_values::number::NameId;

/// Adds the line that begins a clause.
#[tactic(auto, unfolding(thr_text::specs::Heads::head_word))]
fn add_clause_line(
    out: &mut Vec<u8>,
    scope: &Scope<'_>,
    names: Option<NameId>,
) -> Result<(), AllocError>
    ensures { OnOk result (out.new.items ≡ out.old.items ++ line (form_words (scope_of scope.now) (clause_form names))) }
{
    match names {
        Some(name) => add_with(out, Head::Catch, scope.name(name)),
        None => add_bare(out, Head::CatchAll),
    }
}

#[cycle(stmt_lines)]
pub(crate) fn add_body(
    out: &mut Vec<u8>,
    scope: &Scope<'_>,
    body: &[Stmt],
) -> Result<(), AllocError>
    ensures { OnOk result (out.new.items ≡ out.old.items ++ lines_text (scope_of scope.now) (body_lines body.now)) }
{
    for stmt in body {
        add_stmt(out, scope, stmt)?;
    }
    Ok(())
}

#[cycle(stmt_lines)]
fn add_clauses(out: &mut Vec<u8>, scope: &Scope<'_>, clauses: &[Clause]) -> Result<(), AllocError>
    ensures { OnOk result (out.new.items ≡ out.old.items ++ lines_text (scope_of scope.now) (clauses_lines clauses.now)) }
{
    for clause in clauses {
        add_clause_line(out, scope, clause.names)?;
        add_body(out, scope, clause.body.as_slice())?;
    }
    Ok(())
}

/// Adds the lines of a statement.
#[cycle(stmt_lines)]
fn add_stmt(out: &mut Vec<u8>, scope: &Scope<'_>, stmt: &Stmt) -> Result<(), AllocError>
    ensures { OnOk result (out.new.items ≡ out.old.items ++ lines_text (scope_of scope.now) (stmt_lines stmt.now)) }
{
    match stmt {
        Stmt::Set(v, e) => add_with_value(out, scope, Head::Set, scope.variable(*v), e),
        Stmt::Say(e) => add_value(out, scope, Head::Say, e),
        Stmt::If(e, body, other) => {
            add_value(out, scope, Head::If, e)?;
            add_body(out, scope, body.as_slice())?;
            match other {
                None => add_bare(out, Head::End),
                Some(other) => {
                    add_bare(out, Head::Else)?;
                    add_body(out, scope, other.as_slice())?;
                    add_bare(out, Head::End)
                }
            }
        }
        Stmt::While(e, body) => {
            add_value(out, scope, Head::While, e)?;
            add_body(out, scope, body.as_slice())?;
            add_bare(out, Head::End)
        }
        Stmt::TryCatch(body, clauses) => {
            add_bare(out, Head::Try)?;
            add_body(out, scope, body.as_slice())?;
            add_clauses(out, scope, clauses.as_slice())?;
            add_bare(out, Head::Endtry)
        }
        Stmt::TryFinally(body, last) => {
            add_bare(out, Head::Try)?;
            add_body(out, scope, body.as_slice())?;
            add_bare(out, Head::Finally)?;
            add_body(out, scope, last.as_slice())?;
            add_bare(out, Head::Endtry)
        }
        Stmt::Raise(name) => add_with(out, Head::Raise, scope.name(*name)),
        Stmt::Reraise => add_bare(out, Head::Reraise),
        Stmt::Call(name, e, v) => add_call_line(out, scope, Head::Call, scope.name(*name), e, *v),
        Stmt::Return(e) => add_value(out, scope, Head::Return, e),
        Stmt::Exit(e) => add_value(out, scope, Head::Exit, e),
        Stmt::Dce(call) => add_dce(out, scope, call),
    }
}
