//! The names by which the names of a line are resolved.

ghost use Rattle.std.specs.Prelude.{◌≡◌, position};
ghost use Rattle.std.specs.Str.{bytes_eq};
ghost use Rattle.thr_resolving.specs.Resolving.{place_at, id_in, place_in, is_local, variable_in, exception_in};
ghost use Rattle.thr_resolving.specs.Seen.{scope_seen};

use thr_naming::{Table, is_among};
use thr_syntax::expr::{ExcRef, Var};
use thr_text::operands::is_word;
use thr_text::word::Word;
use thr_values::name::Name;
use thr_values::number::NameId;

/// The names that are declared for the whole script, and the parameter and locals in force.
#[derive(Clone, Copy)]
pub struct Names<'a> {
    pub table: &'a Table,
    pub locals: &'a [Name],
}

/// The place of the first local with this name.
fn position(locals: &[Name], name: &Name) -> Option<usize>
    ensures { result ≡ position (bytes_eq name.now) locals.now }
{
    locals.iter().position(|n| name == n)
}

/// The place as it stands in a `Var`; there are at most 16.
fn place_at(place: Option<usize>) -> u8
    ensures { result ≡ place_at place }
{
    match place {
        Some(place) if place < 256 => place as u8,
        _ => 0,
    }
}

impl Names<'_> {
    /// The id of a name that is declared for the whole script, or else the first.
    pub fn id(&self, word: &Word) -> NameId
        ensures { result ≡ id_in (scope_seen self.now) word.now }
    {
        match word {
            Word::Name(name) => self.table.id(name).unwrap_or(NameId(0)),
            _ => NameId(0),
        }
    }

    /// The place of a parameter or local, or else 0.
    pub fn place(&self, word: &Word) -> u8
        ensures { result ≡ place_in (scope_seen self.now) word.now }
    {
        match word {
            Word::Name(name) => place_at(position(self.locals, name)),
            _ => 0,
        }
    }

    /// Whether the word is the parameter or a local.
    pub fn is_local(&self, word: &Word) -> bool
        ensures { result ≡ is_local (scope_seen self.now) word.now }
    {
        match word {
            Word::Name(name) => is_among(self.locals, name),
            _ => false,
        }
    }

    /// The parameter, local or shared variable that the word names.
    pub fn variable(&self, word: &Word) -> Var
        ensures { result ≡ variable_in (scope_seen self.now) word.now }
    {
        if self.is_local(word) {
            Var::Local(self.place(word))
        } else {
            Var::Shared(self.id(word))
        }
    }

    /// The exception that the word names, or what the running catch body has caught.
    pub fn exception(&self, word: &Word) -> ExcRef
        ensures { result ≡ exception_in (scope_seen self.now) word.now }
    {
        if is_word(b"this", word) {
            ExcRef::This
        } else {
            ExcRef::Named(self.id(word))
        }
    }
}
