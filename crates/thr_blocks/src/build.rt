//! Trees from lines, by the blocks that are open.

ghost use Rattle.std.specs.Prelude.{◌≡◌, ℕ, [], ◌∷◌, ◌++◌, reverse, false, true, map, None, List, IfOk, OnOk};
ghost use Rattle.std.specs.List.{filter, list_all};
ghost use Rattle.thr_syntax.specs.Lines.{joined, item_lines};
ghost use Rattle.thr_syntax.specs.declared.tree.Item.{Item};
ghost use Rattle.thr_text.specs.Blocks.{Line, form_shape, shape_of_line, block_faults, Nest};
ghost use Rattle.thr_blocks.specs.Trees.{item_nests};
ghost use Rattle.thr_blocks.specs.Build as Build;
ghost use Rattle.thr_blocks.specs.Build.{frame, with_parts, begun_routine, closed, reversed, reversed_routine, at_else, at_clause, at_finally, next_part, built, is_own, left_open};

use crate::frame::{Frame, OpenRoutine, Opener, Part};
use sqlite_items::Items;
use std::alloc::{AllocError, Global};
use std::mem;
use thr_syntax::form::Form;
use thr_syntax::tree::{Clause, Item, Routine, Stmt};
use thr_values::name::Name;
use thr_values::number::NameId;

fn with_clause(
    clauses: Items<Clause>,
    names: Option<NameId>,
    body: Items<Stmt>,
) -> Result<Items<Clause>, AllocError>
    ensures { IfOk result (λ all. all ≡ clauses ++ Build.clause names body ∷ []) }
{
    let mut clauses = clauses;
    clauses.push(Clause { names, body })?;
    Ok(clauses)
}

/// The statement that a block is, once its last part has ended.
fn closed(alloc: Global, opener: Opener, body: Items<Stmt>) -> Result<Stmt, AllocError>
    ensures { IfOk result (λ s. s ≡ closed opener body) }
{
    match opener {
        Opener::If(e) => Ok(Stmt::If(e, body, None)),
        Opener::Else(e, first) => Ok(Stmt::If(e, first, Some(body))),
        Opener::While(e) => Ok(Stmt::While(e, body)),
        Opener::Try => Ok(Stmt::TryCatch(body, Items::new(alloc))),
        Opener::Catch(first, clauses, names) => {
            Ok(Stmt::TryCatch(first, with_clause(clauses, names, body)?))
        }
        Opener::Finally(first) => Ok(Stmt::TryFinally(first, body)),
    }
}

fn at_else(opener: Opener, body: Items<Stmt>) -> Opener
    ensures { result ≡ at_else opener body }
{
    match opener {
        Opener::If(e) => Opener::Else(e, body),
        other => other,
    }
}

fn at_clause(
    alloc: Global,
    names: Option<NameId>,
    opener: Opener,
    body: Items<Stmt>,
) -> Result<Opener, AllocError>
    ensures { IfOk result (λ o. o ≡ at_clause names opener body) }
{
    match opener {
        Opener::Try => Ok(Opener::Catch(body, Items::new(alloc), names)),
        Opener::Catch(first, clauses, before) => {
            let clauses = with_clause(clauses, before, body)?;
            Ok(Opener::Catch(first, clauses, names))
        }
        other => Ok(other),
    }
}

fn at_finally(opener: Opener, body: Items<Stmt>) -> Opener
    ensures { result ≡ at_finally opener body }
{
    match opener {
        Opener::Try => Opener::Finally(body),
        other => other,
    }
}

fn next_part(
    alloc: Global,
    part: Part,
    opener: Opener,
    body: Items<Stmt>,
) -> Result<Opener, AllocError>
    ensures { IfOk result (λ o. o ≡ next_part part opener body) }
{
    match part {
        Part::Else => Ok(at_else(opener, body)),
        Part::Catch(names) => at_clause(alloc, names, opener, body),
        Part::Finally => Ok(at_finally(opener, body)),
    }
}

/// Puts a statement into the innermost block. It answers, as the others do, whether the line ends the routine.
fn add_stmt(routine: &mut OpenRoutine, stmt: Stmt) -> Result<bool, AllocError>
    ensures { IfOk result (λ ended. (ended ≡ false) × (routine.new ≡ with_parts routine.old routine.old.locals (routine.old.body ++ stmt ∷ []) routine.old.frames)) }
{
    routine.body.push(stmt)?;
    Ok(false)
}

fn add_local(routine: &mut OpenRoutine, local: Name) -> Result<bool, AllocError>
    ensures { IfOk result (λ ended. (ended ≡ false) × (routine.new ≡ with_parts routine.old (routine.old.locals ++ local ∷ []) routine.old.body routine.old.frames)) }
{
    routine.locals.push(local)?;
    Ok(false)
}

/// Takes the statements of the innermost block out.
fn take_body(alloc: Global, routine: &mut OpenRoutine) -> Items<Stmt>
    ensures body { result ≡ routine.old.body }
    ensures left { routine.new ≡ with_parts routine.old routine.old.locals [] routine.old.frames }
{
    mem::replace(&mut routine.body, Items::new(alloc))
}

/// Opens a block inside the innermost.
fn open_block(alloc: Global, routine: &mut OpenRoutine, opener: Opener) -> Result<bool, AllocError>
    ensures { IfOk result (λ ended. (ended ≡ false) × (routine.new ≡ with_parts routine.old routine.old.locals [] (routine.old.frames ++ frame opener routine.old.body ∷ []))) }
{
    let outer = take_body(alloc, routine);
    routine.frames.push(Frame { opener, outer })?;
    Ok(false)
}

/// Begins the next part of the innermost block.
fn begin_part(alloc: Global, routine: &mut OpenRoutine, part: Part) -> Result<bool, AllocError>
    ensures { IfOk result (λ ended. (ended ≡ false) × (reversed_routine routine.new ≡ Build.next_part_begun part (reversed_routine routine.old) (reverse routine.old.frames))) }
{
    match routine.frames.pop() {
        None => Ok(false),
        Some(Frame { opener, outer }) => {
            let body = take_body(alloc, routine);
            let opener = next_part(alloc, part, opener, body)?;
            routine.frames.push(Frame { opener, outer })?;
            Ok(false)
        }
    }
}

/// Ends the innermost block, or else the routine, and answers whether it was the routine, whose parts are then taken out.
fn close(
    alloc: Global,
    items: &mut Items<Item>,
    routine: &mut OpenRoutine,
) -> Result<bool, AllocError>
    ensures { IfOk result (λ ended. (items.new, left_open ended routine.new) ≡ Build.block_closed items.old (reversed_routine routine.old) (reverse routine.old.frames)) }
{
    let body = take_body(alloc, routine);
    match routine.frames.pop() {
        None => {
            let name = routine.name;
            let locals = mem::replace(&mut routine.locals, Items::new(alloc));
            items.push(Item::Routine(Routine { name, locals, body }))?;
            Ok(true)
        }
        Some(Frame { opener, mut outer }) => {
            outer.push(closed(alloc, opener, body)?)?;
            routine.body = outer;
            Ok(false)
        }
    }
}

/// Opens a routine.
fn with_parts(alloc: Global, name: NameId, parameter: Name) -> Result<OpenRoutine, AllocError>
    ensures { IfOk result (λ r. r ≡ begun_routine name parameter) }
{
    let mut locals = Items::new(alloc);
    locals.push(parameter)?;
    Ok(OpenRoutine {
        name,
        locals,
        body: Items::new(alloc),
        frames: Items::new(alloc),
    })
}

/// Takes a declaration; no routine is open after it.
fn with_item(items: &mut Items<Item>, item: Item) -> Result<Option<OpenRoutine>, AllocError>
    ensures { IfOk result (λ o. (o ≡ None) × (items.new ≡ items.old ++ item ∷ [])) }
{
    items.push(item)?;
    Ok(None)
}

#[tactic(auto, unfolding(crate::specs::Build::put_outside))]
fn put_outside(
    alloc: Global,
    items: &mut Items<Item>,
    form: Form,
) -> Result<Option<OpenRoutine>, AllocError>
    ensures { IfOk result (λ o. (items.new, reversed o) ≡ Build.put_outside items.old form) }
{
    match form {
        Form::Interface(interface) => with_item(items, Item::Interface(interface)),
        Form::Limit(n) => with_item(items, Item::Limit(n)),
        Form::Shared(name, n) => with_item(items, Item::Shared(name, n)),
        Form::Exception(name) => with_item(items, Item::Exception(name)),
        Form::Status(name, n) => with_item(items, Item::Status(name, n)),
        Form::Mutex(name) => with_item(items, Item::Mutex(name)),
        Form::MutexAttr(name) => with_item(items, Item::MutexAttr(name)),
        Form::Cond(name) => with_item(items, Item::Cond(name)),
        Form::Attr(name) => with_item(items, Item::Attr(name)),
        Form::Key(name) => with_item(items, Item::Key(name)),
        Form::Once(name) => with_item(items, Item::Once(name)),
        Form::Pipe(name, n) => with_item(items, Item::Pipe(name, n)),
        Form::Routine(name, parameter) => Ok(Some(with_parts(alloc, name, parameter)?)),
        _other => Ok(None),
    }
}

/// Takes one line more of a routine, and answers whether it ends the routine.
#[tactic(auto, unfolding(crate::specs::Build::put_inside))]
fn put_inside(
    alloc: Global,
    items: &mut Items<Item>,
    routine: &mut OpenRoutine,
    form: Form,
) -> Result<bool, AllocError>
    ensures { IfOk result (λ ended. (items.new, left_open ended routine.new) ≡ Build.put_inside items.old (reversed_routine routine.old) form) }
{
    match form {
        Form::Local(name) => add_local(routine, name),
        Form::Set(v, e) => add_stmt(routine, Stmt::Set(v, e)),
        Form::Say(e) => add_stmt(routine, Stmt::Say(e)),
        Form::If(e) => open_block(alloc, routine, Opener::If(e)),
        Form::Else => begin_part(alloc, routine, Part::Else),
        Form::While(e) => open_block(alloc, routine, Opener::While(e)),
        Form::Try => open_block(alloc, routine, Opener::Try),
        Form::Catch(x) => begin_part(alloc, routine, Part::Catch(Some(x))),
        Form::CatchAll => begin_part(alloc, routine, Part::Catch(None)),
        Form::Finally => begin_part(alloc, routine, Part::Finally),
        Form::Raise(x) => add_stmt(routine, Stmt::Raise(x)),
        Form::Reraise => add_stmt(routine, Stmt::Reraise),
        Form::Call(name, e, v) => add_stmt(routine, Stmt::Call(name, e, v)),
        Form::Return(e) => add_stmt(routine, Stmt::Return(e)),
        Form::Exit(e) => add_stmt(routine, Stmt::Exit(e)),
        Form::Dce(call) => add_stmt(routine, Stmt::Dce(call)),
        Form::Endtry | Form::End => close(alloc, items, routine),
        _ => Ok(false),
    }
}

/// Takes one line more.
fn put(
    alloc: Global,
    items: &mut Items<Item>,
    routine: &mut Option<OpenRoutine>,
    form: Form,
) -> Result<(), AllocError>
    ensures { OnOk result ((items.new, reversed routine.new) ≡ Build.put (items.old, reversed routine.old) form) }
{
    match routine {
        None => *routine = put_outside(alloc, items, form)?,
        Some(open) => {
            if put_inside(alloc, items, open, form)? {
                *routine = None;
            }
        }
    }
    Ok(())
}

fn build(
    alloc: Global,
    items: &mut Items<Item>,
    forms: Vec<Form>,
) -> Result<Option<OpenRoutine>, AllocError>
    requires { items.old ≡ [] }
    ensures { IfOk result (λ o. (items.new, reversed o) ≡ built forms.items) }
{
    let mut routine = None;
    for form in forms {
        put(alloc, items, &mut routine, form)?;
    }
    Ok(routine)
}

/// The declarations of which these are the lines. A first line of a script has no declaration, and each such line is left
/// out. It takes the lines one by one and doesn't call itself; but dropping the answer does, as deep as its blocks lie in
/// one another, so it is called for lines whose depth is bounded (docs/script.md, "Blocks").
#[tactic(auto, using(crate::proofs::BuildLaws::kept_lines, crate::proofs::BuildLaws::all_own, crate::proofs::Determined::built_again))]
pub fn build_items(alloc: Global, forms: Vec<Form>) -> Result<Items<Item>, AllocError>
    requires { Nest [] (map form_shape forms.items) }
    ensures lines { IfOk result (λ all. joined (map item_lines all) ≡ filter is_own forms.items) }
    ensures own { list_all is_own forms.items ≡ true → IfOk result (λ all. joined (map item_lines all) ≡ forms.items) }
    ensures again { (xs : List Item) → joined (map item_lines xs) ≡ forms.items → IfOk result (λ all. all ≡ xs) }
{
    let mut items = Items::new(alloc);
    build(alloc, &mut items, forms)?;
    Ok(items)
}

/// Lines that nest are the lines of one list of declarations.
pub fn lines_determine_items()
    ensures { (xs ys : List Item) → Nest [] (map form_shape (joined (map item_lines xs))) → joined (map item_lines xs) ≡ joined (map item_lines ys) → xs ≡ ys }
{}

/// The lines of declarations nest exactly where each routine has its parameter, and each try a `finally` or at least one
/// clause and none after its `catch_all`.
pub fn lines_of_trees_nest()
    ensures nest { (all : List Item) → list_all item_nests all ≡ true → Nest [] (map form_shape (joined (map item_lines all))) }
    ensures trees { (all : List Item) → Nest [] (map form_shape (joined (map item_lines all))) → list_all item_nests all ≡ true }
{}

/// Lines of their own that nest are the lines of some declarations.
pub fn lines_that_nest_have_a_tree()
    ensures { (forms : List Form) → Nest [] (map form_shape forms) → list_all is_own forms ≡ true → (all : List Item) × (joined (map item_lines all) ≡ forms) }
{}
