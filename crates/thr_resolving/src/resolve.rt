//! Lines with their names resolved.

ghost use Rattle.std.specs.Prelude.{◌≡◌, [], IfOk, IfErr};
ghost use Rattle.std.specs.Map.{keys_of};
ghost use Rattle.thr_text.specs.declared.fault.ParseFault.TheVariants as ParseFault;
ghost use Rattle.thr_text.specs.NameFaults.{words_in};
ghost use Rattle.thr_resolving.specs.Resolving.{scope_of, resolved, resolved_lines};

use crate::form::form_of;
use crate::pieces::{Pieces, read_pieces};
use crate::scope::Names;
use crate::values::{Values, read_values};
use sqlite_items::Items;
use std::alloc::Global;
use thr_lexer::line::Line;
use thr_naming::{Table, pass_locals, rest};
use thr_syntax::form::Form;
use thr_text::fault::ParseFault;
use thr_values::name::Name;

/// The line with its names resolved: each by its place among the names of the table, or among the parameter and the locals in
/// force (docs/script.md, "Names").
#[tactic(auto, unfolding(crate::specs::Resolving::resolved))]
fn resolve<'a>(
    alloc: Global,
    table: &Table,
    locals: &[Name],
    line: &'a Line,
    pieces: &mut Pieces<'a>,
    values: &mut Values,
) -> Result<Form, ParseFault>
    ensures ok { IfOk result (λ f. f ≡ resolved (scope_of (keys_of table.now) locals.now) line.now.1) }
    ensures fault { IfErr result (λ f. f ≡ ParseFault.NoMemory) }
{
    let names = Names { table, locals };
    let head = line.head();
    read_pieces(alloc, &names, rest(line.words().as_slice()), pieces)?;
    read_values(&names, head.slots(), pieces, values)?;
    Ok(form_of(head, values))
}

/// Lines of a text with their names resolved, each below the parameter and locals in force: those of the lines since the last
/// `routine` line, with its own.
pub fn resolve_lines(alloc: Global, table: &Table, lines: &[Line]) -> Result<Vec<Form>, ParseFault>
    ensures ok { IfOk result (λ fs. fs.items ≡ resolved_lines (keys_of table.now) [] (words_in lines.now)) }
    ensures fault { IfErr result (λ f. f ≡ ParseFault.NoMemory) }
{
    let mut locals = Items::new(alloc);
    let mut forms = Vec::new(alloc);
    let mut pieces = Pieces::new(alloc);
    let mut values = Values::new(alloc);
    for line in lines {
        pass_locals(alloc, &mut locals, line)?;
        forms.push(resolve(
            alloc,
            table,
            locals.as_slice(),
            line,
            &mut pieces,
            &mut values,
        )?)?;
    }
    Ok(forms)
}
