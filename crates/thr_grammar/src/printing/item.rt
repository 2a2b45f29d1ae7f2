//! The lines of declarations.

ghost use Rattle.std.specs.Prelude.{◌≡◌, ◌++◌, OnOk};
ghost use Rattle.thr_syntax.specs.Lines.{head_lines, routine_lines, item_lines};
ghost use Rattle.thr_grammar.specs.Printing.{scope_of, lines_text, locals_text};

use crate::printing::line::{
    add_bare, add_limit, add_with, add_with_count, add_with_number, add_with_two,
};
use crate::printing::scope::Scope;
use crate::printing::statement::add_body;
use std::alloc::AllocError;
use thr_syntax::tree::{Item, Routine};
use thr_text::fixed::interface_text;
use thr_text::head::Head;
use thr_values::name::Name;
use thr_values::number::NameId;

/// Adds the lines of further locals.
fn add_locals(out: &mut Vec<u8>, locals: &[Name]) -> Result<(), AllocError>
    ensures { OnOk result (out.new.items ≡ out.old.items ++ locals_text locals.now) }
{
    for local in locals {
        add_with(out, Head::Local, local.as_slice())?;
    }
    Ok(())
}

/// Adds the line of a routine and those of its further locals.
fn add_head(
    out: &mut Vec<u8>,
    scope: &Scope<'_>,
    name: NameId,
    locals: &[Name],
) -> Result<(), AllocError>
    ensures { OnOk result (out.new.items ≡ out.old.items ++ lines_text (scope_of scope.now) (head_lines name locals.now)) }
{
    match locals {
        [] => Ok(()),
        [parameter, locals @ ..] => {
            add_with_two(out, Head::Routine, scope.name(name), parameter.as_slice())?;
            add_locals(out, locals)
        }
    }
}

/// Adds the lines of a routine.
fn add_routine(out: &mut Vec<u8>, scope: &Scope<'_>, routine: &Routine) -> Result<(), AllocError>
    ensures { OnOk result (out.new.items ≡ out.old.items ++ lines_text (scope_of scope.now) (routine_lines routine.now)) }
{
    add_head(out, scope, routine.name, routine.locals.as_slice())?;
    add_body(out, scope, routine.body.as_slice())?;
    add_bare(out, Head::End)
}

/// Adds the lines of a declaration.
#[tactic(auto, using(crate::proofs::TreeTexts::text_laws), unfolding(thr_text::specs::Heads::head_word))]
pub(crate) fn add_item(out: &mut Vec<u8>, scope: &Scope<'_>, item: &Item) -> Result<(), AllocError>
    ensures { OnOk result (out.new.items ≡ out.old.items ++ lines_text (scope_of scope.now) (item_lines item.now)) }
{
    match item {
        Item::Interface(interface) => add_with(out, Head::Interface, interface_text(*interface)),
        Item::Limit(n) => add_limit(out, Head::Limit, *n),
        Item::Shared(name, n) => add_with_number(out, Head::Shared, scope.name(*name), *n),
        Item::Exception(name) => add_with(out, Head::Exception, scope.name(*name)),
        Item::Status(name, n) => add_with_number(out, Head::Status, scope.name(*name), *n),
        Item::Mutex(name) => add_with(out, Head::Mutex, scope.name(*name)),
        Item::MutexAttr(name) => add_with(out, Head::Mutexattr, scope.name(*name)),
        Item::Cond(name) => add_with(out, Head::Cond, scope.name(*name)),
        Item::Attr(name) => add_with(out, Head::Attr, scope.name(*name)),
        Item::Key(name) => add_with(out, Head::Key, scope.name(*name)),
        Item::Once(name) => add_with(out, Head::Once, scope.name(*name)),
        Item::Pipe(name, n) => add_with_count(out, Head::Pipe, scope.name(*name), *n),
        Item::Routine(routine) => add_routine(out, scope, routine),
    }
}
