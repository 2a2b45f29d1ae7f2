//! The canonical text of a script (docs/script.md, "The canonical text").

ghost use Rattle.std.specs.Prelude.{◌≡◌, ◌++◌, IfOk, OnOk};
ghost use Rattle.thr_syntax.specs.Canon.{canon, locals_in};
ghost use Rattle.thr_grammar.specs.Printing.{items_text};

mod call;
mod expression;
mod item;
mod line;
mod scope;
mod statement;

use crate::printing::item::add_item;
use crate::printing::scope::Scope;
use std::alloc::{AllocError, Global};
use thr_syntax::tree::{Item, Script};
use thr_values::name::Name;
use thr_values::number::NoMemory;

/// The canonical text, with the end of its last line.
pub fn print(alloc: Global, s: &Script) -> Result<Vec<u8>, NoMemory>
    ensures { IfOk result (λ text. text.items ≡ canon s.now) }
{
    print_with_room(alloc, s, 0)
}

/// The same, with memory for so many bytes from the start: for whoever knows about how long the text is.
pub fn print_with_room(alloc: Global, s: &Script, room: usize) -> Result<Vec<u8>, NoMemory>
    ensures { IfOk result (λ text. text.items ≡ canon s.now) }
{
    text_of(alloc, s, room).map_err(|_| NoMemory)
}

fn text_of(alloc: Global, s: &Script, room: usize) -> Result<Vec<u8>, AllocError>
    ensures { IfOk result (λ text. text.items ≡ canon s.now) }
{
    let mut out = Vec::with_capacity(alloc, room)?;
    out.extend_from_slice(b"dcethr 1\n")?;
    add_items(&mut out, s.names.as_slice(), s.items.as_slice())?;
    Ok(out)
}

/// Adds the lines of declarations.
fn add_items(out: &mut Vec<u8>, names: &[Name], items: &[Item]) -> Result<(), AllocError>
    ensures { OnOk result (out.new.items ≡ out.old.items ++ items_text names.now items.now) }
{
    for item in items {
        let locals = locals_of(item);
        let scope = Scope { names, locals };
        add_item(out, &scope, item)?;
    }
    Ok(())
}

/// The parameter and locals that a declaration has.
fn locals_of(item: &Item) -> &[Name]
    ensures { result.now ≡ locals_in item.now }
{
    match item {
        Item::Routine(routine) => routine.locals.as_slice(),
        _ => &[],
    }
}
