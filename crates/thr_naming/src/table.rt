//! The names of a script with what they are the names of.

ghost use Rattle.std.specs.Prelude.{◌≡◌, ◌≤◌, ◌<◌, [], true, Some, is_some, length, map, position, OnOk, IfOk, IfErr, IfSome};
ghost use Rattle.std.specs.List.{list_all};
ghost use Rattle.std.specs.Map.{keys_of};
ghost use Rattle.std.specs.Str.{bytes_eq};
ghost use Rattle.thr_syntax.specs.Spelling.{name_at};
ghost use Rattle.thr_text.specs.declared.fault.ParseFault.TheVariants as ParseFault;
ghost use Rattle.thr_text.specs.Tables.{kind_in, is_declared, builtin_entry, declared_in};
ghost use Rattle.thr_text.specs.NameFaults.{words_in};
ghost use Rattle.thr_naming.specs.Ids.{id_at};
ghost use Rattle.thr_naming.specs.Judging.{with_entry, noted, table_of, is_short};

use crate::brought::declared;
use indexmap::IndexMap;
use sqlite_items::Items;
use std::alloc::Global;
use std::marker::Model;
use thr_lexer::line::Line;
use thr_text::fault::ParseFault;
use thr_text::object::Object;
use thr_values::name::Name;
use thr_values::number::NameId;

/// The built-in exceptions in their order (docs/script.md, "Names").
const BUILTIN: [&[u8]; 10] = [
    b"cancel_e",
    b"badparam_e",
    b"use_error_e",
    b"existence_e",
    b"in_use_e",
    b"exhaust_e",
    b"pipe_e",
    b"intovf_e",
    b"intdiv_e",
    b"stackovf_e",
];

/// Names, each with the kind of its first declaration, in the order of these. Contracts see them as a list.
#[derive(Drop)]
pub struct Table {
    kinds: IndexMap<Name, Object>,
}

impl Model for Table {
    ghost use Rattle.std.specs.Prelude.{List};
    ghost use Rattle.thr_text.specs.Tables.{Entry};

    ghost Value = { List Entry };

    ghost view = { λ t. t.kinds.entries };
}

impl Table {
    pub(crate) fn new(alloc: Global) -> Table
        ensures { result ≡ [] }
    {
        Table {
            kinds: IndexMap::new(alloc),
        }
    }

    /// What the name is the name of, if it is in the table.
    #[tactic(auto, using(crate::proofs::TableLaws::kind_looked_up))]
    pub fn kind(&self, name: &Name) -> Option<Object>
        ensures { result ≡ kind_in self.now name.now }
    {
        self.kinds.get(name).copied()
    }

    pub fn has(&self, name: &Name) -> bool
        ensures { result ≡ is_declared self.now name.now }
    {
        self.kind(name).is_some()
    }

    /// The place of a name that is in the table, the first at 0. Behind 65,536 names there are no places, but no script that is
    /// accepted has so many.
    pub fn id(&self, name: &Name) -> Option<NameId>
        ensures place { result ≡ id_at (position (bytes_eq name.now) (keys_of self.now)) }
        ensures name { IfSome result (λ id. name_at (keys_of self.now) id.0 ≡ name.now) }
        ensures found { length self.now ≤ 65536 → is_some result ≡ is_declared self.now name.now }
    {
        match place_in(&self.kinds, name) {
            Some(place) => as_id(place),
            None => None,
        }
    }

    /// The names in their order.
    pub fn names(&self, alloc: Global) -> Result<Items<Name>, ParseFault>
        ensures names { IfOk result (λ names. names ≡ keys_of self.now) }
        ensures fault { IfErr result (λ f. f ≡ ParseFault.NoMemory) }
    {
        copies(alloc, &self.kinds)
    }

    /// Adds a name, unless it is there already.
    #[tactic(auto, using(crate::proofs::TableLaws::inserting, crate::proofs::TableLaws::kind_looked_up))]
    pub(crate) fn note(&mut self, name: &Name, kind: Object) -> Result<(), ParseFault>
        ensures ok { OnOk result (self.new ≡ with_entry self.old (name.now, kind)) }
        ensures fault { IfErr result (λ f. f ≡ ParseFault.NoMemory) }
    {
        if self.has(name) {
            return Ok(());
        }
        let name = name.clone()?;
        self.kinds.insert(name, kind)?;
        Ok(())
    }
}

fn place_in(kinds: &IndexMap<Name, Object>, name: &Name) -> Option<usize>
    ensures { result ≡ position (bytes_eq name.now) (keys_of kinds.now.entries) }
{
    kinds.get_index_of(name)
}

fn as_id(place: usize) -> Option<NameId>
    ensures exact { result ≡ id_at (Some place) }
    ensures value { IfSome result (λ id. id.0 ≡ place) }
    ensures found { place < 65536 → is_some result ≡ true }
{
    if place < 65536 {
        Some(NameId(place as u16))
    } else {
        None
    }
}

fn copies(alloc: Global, kinds: &IndexMap<Name, Object>) -> Result<Items<Name>, ParseFault>
    ensures names { IfOk result (λ names. names ≡ keys_of kinds.now.entries) }
    ensures fault { IfErr result (λ f. f ≡ ParseFault.NoMemory) }
{
    let mut names = Items::new(alloc);
    for name in kinds.keys() {
        names.push(name.clone()?)?;
    }
    Ok(names)
}

fn note_exceptions(alloc: Global, table: &mut Table, names: &[&[u8]]) -> Result<(), ParseFault>
    requires { list_all (λ t. is_short t.now) names.now ≡ true }
    ensures ok { OnOk result (table.new ≡ noted table.old (map (λ t. builtin_entry t.now) names.now)) }
    ensures fault { IfErr result (λ f. f ≡ ParseFault.NoMemory) }
{
    for text in names {
        let name = Name::from_slice(alloc, text)?;
        table.note(&name, Object::Exception)?;
    }
    Ok(())
}

/// The table of the built-in exceptions.
#[tactic(auto, unfolding(crate::specs::Judging::noted))]
pub fn builtin_table(alloc: Global) -> Result<Table, ParseFault>
    ensures ok { IfOk result (λ t. t ≡ table_of []) }
    ensures fault { IfErr result (λ f. f ≡ ParseFault.NoMemory) }
{
    let mut table = Table::new(alloc);
    note_exceptions(alloc, &mut table, &BUILTIN)?;
    Ok(table)
}

/// Adds the name that a line declares.
#[tactic(auto, unfolding(crate::specs::Judging::noted))]
pub fn note_line(table: &mut Table, line: &Line) -> Result<(), ParseFault>
    ensures ok { OnOk result (table.new ≡ noted table.old (declared_in line.now.1)) }
    ensures fault { IfErr result (λ f. f ≡ ParseFault.NoMemory) }
{
    match declared(line) {
        Some((name, kind)) => table.note(name, kind),
        None => Ok(()),
    }
}

/// The built-in exceptions and the names that the lines declare.
pub fn table_of(alloc: Global, lines: &[Line]) -> Result<Table, ParseFault>
    ensures ok { IfOk result (λ t. t ≡ table_of (words_in lines.now)) }
    ensures fault { IfErr result (λ f. f ≡ ParseFault.NoMemory) }
{
    let mut table = builtin_table(alloc)?;
    for line in lines {
        note_line(&mut table, line)?;
    }
    Ok(table)
}
