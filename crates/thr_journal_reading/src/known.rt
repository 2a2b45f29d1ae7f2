//! The names of a script with their kinds.

ghost use Rattle.std.specs.Prelude.{◌≡◌, ◌∷◌, ◌++◌, ◌≤◌, [], length, slice_get, unwrap_or, IfOk, OnOk};
ghost use Rattle.thr_text.specs.declared.object.Object.TheVariants as object;
ghost use Rattle.thr_text.specs.Reading.{Formed, own_lines};
ghost use Rattle.thr_text.specs.Tables.{entries_of};
ghost use Rattle.thr_trees.specs.Kinds.{declared_by};
ghost use Rattle.thr_trees.specs.Names.{declared_of};
ghost use Rattle.thr_journal_lines.specs.Known.{entries_in};
ghost use Rattle.thr_journal_reading.specs.Names.{kind_of, kinds_of, kinds_among, builtin_kinds, with_kind, paired};

use std::alloc::{AllocError, Global};
use thr_journal_lines::Known;
use thr_syntax::tree::{Item, Script};
use thr_text::object::Object;
use thr_values::name::Name;

/// The kind of the name that a declaration declares, if it declares one.
fn kind_of(item: &Item) -> Option<Object>
    ensures { result ≡ kind_of (declared_by item.now) }
{
    match item {
        Item::Interface(_) | Item::Limit(_) => None,
        Item::Shared(_, _) => Some(Object::Shared),
        Item::Exception(_) | Item::Status(_, _) => Some(Object::Exception),
        Item::Mutex(_) => Some(Object::Mutex),
        Item::MutexAttr(_) => Some(Object::Mutexattr),
        Item::Cond(_) => Some(Object::Cond),
        Item::Attr(_) => Some(Object::Attr),
        Item::Key(_) => Some(Object::Key),
        Item::Once(_) => Some(Object::Once),
        Item::Pipe(_, _) => Some(Object::Pipe),
        Item::Routine(_) => Some(Object::Routine),
    }
}

/// Adds the kind of what a declaration declares, if it declares anything.
fn add_kind(kinds: &mut Vec<Object>, item: &Item) -> Result<(), AllocError>
    ensures { OnOk result (kinds.new.items ≡ kinds.old.items ++ kinds_of (declared_of (declared_by item.now))) }
{
    if let Some(kind) = kind_of(item) {
        kinds.push(kind)?;
    }
    Ok(())
}

/// Adds the kinds of what declarations declare.
fn add_kinds(kinds: &mut Vec<Object>, items: &[Item]) -> Result<(), AllocError>
    ensures { OnOk result (kinds.new.items ≡ kinds.old.items ++ kinds_among items.now) }
{
    for item in items {
        add_kind(kinds, item)?;
    }
    Ok(())
}

/// The kinds of the names of a script: ten built-in exceptions, and then what is declared.
fn all_kinds(alloc: Global, items: &[Item]) -> Result<Vec<Object>, AllocError>
    ensures { IfOk result (λ v. v.items ≡ builtin_kinds ++ kinds_among items.now) }
{
    let mut kinds = Vec::from_slice(alloc, &[Object::Exception; 10])?;
    add_kinds(&mut kinds, items)?;
    Ok(kinds)
}

/// The kind at a place. Where there is none the answer is free.
fn kind_at(kinds: &[Object], place: usize) -> Object
    ensures { result ≡ unwrap_or (slice_get kinds.now place) object.Exception }
{
    match kinds.get(place) {
        Some(kind) => *kind,
        None => Object::Exception,
    }
}

/// Adds a name with its kind.
fn add_known(known: &mut Vec<Known>, name: &Name, kind: Object) -> Result<(), AllocError>
    ensures { OnOk result (entries_in known.new.items ≡ entries_in known.old.items ++ with_kind name.now kind ∷ []) }
{
    let name = name.clone()?;
    known.push(Known { name, kind })?;
    Ok(())
}

/// Names, each with the kind at its place.
fn paired(alloc: Global, names: &[Name], kinds: &[Object]) -> Result<Vec<Known>, AllocError>
    ensures { IfOk result (λ v. entries_in v.items ≡ paired names.now kinds.now) }
{
    let mut known = Vec::new(alloc);
    let mut place = 0;
    'names: for name in names {
        add_known(&mut known, name, kind_at(kinds, place))?;
        place += 1;
    }
    Ok(known)
}

/// The names of a script, built in or declared, with their kinds.
pub(crate) fn known_names(alloc: Global, script: &Script) -> Result<Vec<Known>, AllocError>
    requires { Formed script.now }
    ensures names { IfOk result (λ v. entries_in v.items ≡ entries_of (own_lines script.now)) }
    ensures few { IfOk result (λ v. length v.items ≤ 1010) }
{
    let kinds = all_kinds(alloc, script.items.as_slice())?;
    paired(alloc, script.names.as_slice(), kinds.as_slice())
}
