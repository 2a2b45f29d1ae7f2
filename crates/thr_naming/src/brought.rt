//! The names that lines bring in.

ghost use Rattle.std.specs.Prelude.{◌≡◌, slice_get, Some};
ghost use Rattle.thr_text.specs.Slots.{slots_of};
ghost use Rattle.thr_text.specs.Tables.{declared_in};
ghost use Rattle.thr_text.specs.NameFaults.{own_in, name_of_word};
ghost use Rattle.thr_naming.specs.Placing.{entries_seen, names_seen, name_at_place, first_kind, entry_by, own_place};

use thr_lexer::line::Line;
use thr_text::head::Head;
use thr_text::object::Object;
use thr_text::word::Word;
use thr_values::name::Name;

fn as_name(word: &Word) -> Option<&Name>
    ensures { names_seen result ≡ name_of_word word.now }
{
    match word {
        Word::Name(name) => Some(name),
        _ => None,
    }
}

fn name_at(line: &Line, at: usize) -> Option<&Name>
    ensures { names_seen result ≡ name_at_place (slice_get line.now.1 at) }
{
    match line.words().get(at) {
        Some(word) => as_name(word),
        None => None,
    }
}

/// The kind of what a line with this first word declares for the whole script, if it declares anything.
#[tactic(auto, unfolding(thr_text::specs::Slots::slots_of), using(crate::proofs::KindLaws::no_call_declares))]
fn declared_kind(head: Head) -> Option<Object>
    ensures { result ≡ first_kind (slots_of head) }
{
    match head {
        Head::Shared => Some(Object::Shared),
        Head::Exception | Head::Status => Some(Object::Exception),
        Head::Mutex => Some(Object::Mutex),
        Head::Mutexattr => Some(Object::Mutexattr),
        Head::Cond => Some(Object::Cond),
        Head::Attr => Some(Object::Attr),
        Head::Key => Some(Object::Key),
        Head::Once => Some(Object::Once),
        Head::Pipe => Some(Object::Pipe),
        Head::Routine => Some(Object::Routine),
        _ => None,
    }
}

/// The name that a line declares for the whole script, with its kind. Of most lines it looks at the first word alone.
pub fn declared(line: &Line) -> Option<(&Name, Object)>
    ensures { entries_seen result ≡ declared_in line.now.1 }
{
    match declared_kind(line.head()) {
        Some(kind) => with_kind(name_at(line, 1), kind),
        None => None,
    }
}

fn with_kind(name: Option<&Name>, kind: Object) -> Option<(&Name, Object)>
    ensures { entries_seen result ≡ entry_by (Some kind) (names_seen name.entry) }
{
    match name {
        Some(name) => Some((name, kind)),
        None => None,
    }
}

/// Which word of a line is the parameter or the local.
fn own_place(head: Head) -> Option<usize>
    ensures { result ≡ own_place head }
{
    match head {
        Head::Routine => Some(2),
        Head::Local => Some(1),
        _ => None,
    }
}

/// The parameter of a routine's line, or the local of a local's.
pub fn own_name(line: &Line) -> Option<&Name>
    ensures { names_seen result ≡ own_in line.now.1 }
{
    match own_place(line.head()) {
        Some(at) => name_at(line, at),
        None => None,
    }
}
