//! What names stand for.

ghost use Rattle.std.specs.Prelude.{◌≡◌, ◌||◌, not};
ghost use Rattle.thr_text.specs.Tables.{is_among};
ghost use Rattle.thr_text.specs.NameFaults.{same_kind, sense_of, is_of_kind, is_own, is_unknown, refers, suits, is_undeclared, is_misused};
ghost use Rattle.thr_naming.specs.Judging.{meant, is_misnamed};
ghost use Rattle.thr_naming.specs.Placing.{seen};

use crate::places::Placed;
use crate::table::Table;
use thr_text::head::Slot;
use thr_text::names::is_name;
use thr_text::object::Object;
use thr_text::word::Word;
use thr_values::name::Name;

/// What a name stands for at a line.
#[derive(Clone, Copy, Debug)]
pub enum Sense {
    /// The parameter or a local.
    Own,
    /// Something of this kind that is declared for the whole script.
    Known(Object),
    Unknown,
}

/// Whether the name is one of these.
pub fn is_among(names: &[Name], name: &Name) -> bool
    ensures { result ≡ is_among names.now name.now }
{
    names.iter().any(|n| name == n)
}

fn sense_of(whole: &Table, locals: &[Name], name: &Name) -> Sense
    ensures { meant result ≡ sense_of whole.now locals.now name.now }
{
    if is_among(locals, name) {
        return Sense::Own;
    }
    match whole.kind(name) {
        Some(kind) => Sense::Known(kind),
        None => Sense::Unknown,
    }
}

pub fn is_same(a: Object, b: Object) -> bool
    ensures { result ≡ same_kind a b }
{
    a == b
}

fn is_of_kind(kind: Object, sense: Sense) -> bool
    ensures { result ≡ is_of_kind kind (meant sense) }
{
    match sense {
        Sense::Known(k) => is_same(kind, k),
        _ => false,
    }
}

fn is_own(sense: Sense) -> bool
    ensures { result ≡ is_own (meant sense) }
{
    matches!(sense, Sense::Own)
}

fn is_unknown(sense: Sense) -> bool
    ensures { result ≡ is_unknown (meant sense) }
{
    matches!(sense, Sense::Unknown)
}

/// Whether a name in this slot means what is declared elsewhere.
fn refers(slot: Slot) -> bool
    ensures { result ≡ refers slot }
{
    match slot {
        Slot::Number | Slot::Fixed(_) | Slot::Declared(_) | Slot::Parameter | Slot::Local => false,
        Slot::Object(_)
        | Slot::ObjectOr(_)
        | Slot::Variable
        | Slot::Receiver
        | Slot::Exception
        | Slot::Expression => true,
    }
}

/// Whether what stands for a name is of the kind that its slot asks.
fn suits(slot: Slot, sense: Sense) -> bool
    ensures { result ≡ suits slot (meant sense) }
{
    match slot {
        Slot::Object(kind) | Slot::ObjectOr(kind) => is_of_kind(kind, sense),
        Slot::Variable | Slot::Expression => is_own(sense) || is_of_kind(Object::Shared, sense),
        Slot::Receiver => is_own(sense),
        Slot::Exception => is_of_kind(Object::Exception, sense),
        _ => true,
    }
}

/// Whether what stands for a name isn't what its slot asks.
fn is_wrong(slot: Slot, sense: Sense) -> bool
    ensures { result ≡ (is_unknown (meant sense) || not (suits slot (meant sense))) }
{
    is_unknown(sense) || !suits(slot, sense)
}

/// Whether the word is a name that refers and is undeclared or misused; what it stands for is looked up once.
pub fn is_misnamed(whole: &Table, locals: &[Name], x: &Placed) -> bool
    ensures { result ≡ is_misnamed whole.now locals.now (seen x.now) }
{
    match x.word {
        Word::Name(name) => {
            refers(x.slot)
                && is_wrong(x.slot, sense_of(whole, locals, name))
                && is_name(name.as_slice())
        }
        _ => false,
    }
}

/// Whether the word is a name that refers and is not declared.
pub fn is_undeclared(whole: &Table, locals: &[Name], x: &Placed) -> bool
    ensures { result ≡ is_undeclared whole.now locals.now (seen x.now) }
{
    match x.word {
        Word::Name(name) => {
            refers(x.slot) && is_unknown(sense_of(whole, locals, name)) && is_name(name.as_slice())
        }
        _ => false,
    }
}

/// Whether the word is a name that refers and is of another kind than its slot asks.
pub fn is_misused(whole: &Table, locals: &[Name], x: &Placed) -> bool
    ensures { result ≡ is_misused whole.now locals.now (seen x.now) }
{
    match x.word {
        Word::Name(name) => {
            refers(x.slot)
                && !suits(x.slot, sense_of(whole, locals, name))
                && is_name(name.as_slice())
        }
        _ => false,
    }
}
