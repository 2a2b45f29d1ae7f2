//! The names by which lines are spelled.

ghost use Rattle.std.specs.Prelude.{◌≡◌};
ghost use Rattle.thr_syntax.specs.Spelling.{name_at, name_of, local_of, variable_of, exception_of, name_or};
ghost use Rattle.thr_grammar.specs.Printing.{scope_of};

use thr_syntax::expr::{ExcRef, Var};
use thr_values::name::Name;
use thr_values::number::NameId;

/// The names of a script, and those of a routine's parameter and locals.
#[derive(Clone, Copy)]
pub(crate) struct Scope<'a> {
    pub names: &'a [Name],
    pub locals: &'a [Name],
}

fn name_at(names: &[Name], place: usize) -> &[u8]
    ensures { result.now ≡ name_at names.now place }
{
    match names.get(place) {
        Some(name) => name.as_slice(),
        None => b"",
    }
}

impl<'a> Scope<'a> {
    pub fn name(&self, name: NameId) -> &'a [u8]
        ensures { result.now ≡ name_of (scope_of self.now) name }
    {
        name_at(self.names, usize::from(name.0))
    }

    pub fn local(&self, place: u8) -> &'a [u8]
        ensures { result.now ≡ local_of (scope_of self.now) place }
    {
        name_at(self.locals, usize::from(place))
    }

    pub fn variable(&self, variable: Var) -> &'a [u8]
        ensures { result.now ≡ variable_of (scope_of self.now) variable }
    {
        match variable {
            Var::Local(place) => self.local(place),
            Var::Shared(name) => self.name(name),
        }
    }

    pub fn exception(&self, exception: ExcRef) -> &'a [u8]
        ensures { result.now ≡ exception_of (scope_of self.now) exception }
    {
        match exception {
            ExcRef::Named(name) => self.name(name),
            ExcRef::This => b"this",
        }
    }

    /// The name, or this word where there is none.
    pub fn name_or(&self, word: &'static [u8], name: Option<NameId>) -> &'a [u8]
        ensures { result.now ≡ name_or word.now (scope_of self.now) name }
    {
        match name {
            None => word,
            Some(name) => self.name(name),
        }
    }
}
