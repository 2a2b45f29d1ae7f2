//! What stands in a slot of a line, its names resolved.

ghost use Rattle.std.specs.Prelude.{◌≡◌, [], ◌∷◌, Some, IfOk, IfErr};
ghost use Rattle.thr_text.specs.declared.fault.ParseFault.TheVariants as ParseFault;
ghost use Rattle.thr_text.specs.declared.head.Slot.TheVariants as Slot;
ghost use Rattle.thr_text.specs.Slots.{absent_word, is_one_of};
ghost use Rattle.thr_resolving.specs.Resolving.{Raw, number_in, interface_in, policy_in, kind_in, chosen_in, own_in, receiver_in, value_in};
ghost use Rattle.thr_resolving.specs.Seen.{scope_seen, maybe_piece};

use crate::piece::Piece;
use crate::pieces::{expression, word_or};
use crate::scope::Names;
use std::alloc::Global;
use thr_syntax::expr::{Expr, Var};
use thr_syntax::tree::Interface;
use thr_text::fault::ParseFault;
use thr_text::head::{Choice, Slot};
use thr_text::object::Object;
use thr_text::operands::is_word;
use thr_text::word::Word;
use thr_values::name::Name;
use thr_values::number::NameId;
use thr_values::reply::Kind;
use thr_values::scheduling::Policy;

/// What stands in a slot of a line.
#[derive(Drop)]
pub enum Value {
    Number(i64),
    Interface(Interface),
    Policy(Policy),
    /// Whether the created thread inherits its maker's policy and priority.
    Inherit(bool),
    /// Whether a cancelability is on.
    Cancel(bool),
    Kind(Kind),
    /// A name that is declared for the whole script.
    Id(NameId),
    /// Such a name, or the word that says that there is none.
    Maybe(Option<NameId>),
    /// The name of a parameter or local where it is declared.
    Own(Option<Name>),
    Variable(Var),
    /// The parameter or local that takes what a routine returns, or nothing.
    Receiver(Option<u8>),
    Expression(Expr),
}

fn number(word: &Word) -> i64
    ensures { result ≡ number_in word.now }
{
    match word {
        Word::Num(number) => *number,
        _ => 0,
    }
}

fn interface(word: &Word) -> Interface
    ensures { result ≡ interface_in word.now }
{
    if is_word(b"exc", word) {
        Interface::Exc
    } else {
        Interface::Status
    }
}

fn policy(word: &Word) -> Policy
    ensures { result ≡ policy_in word.now }
{
    if is_word(b"SCHED_FIFO", word) {
        Policy::Fifo
    } else if is_word(b"SCHED_RR", word) {
        Policy::Rr
    } else if is_word(b"SCHED_FG_NP", word) {
        Policy::Fg
    } else {
        Policy::Bg
    }
}

fn kind(word: &Word) -> Kind
    ensures { result ≡ kind_in word.now }
{
    if is_word(b"MUTEX_FAST_NP", word) {
        Kind::Fast
    } else if is_word(b"MUTEX_RECURSIVE_NP", word) {
        Kind::Recursive
    } else {
        Kind::Nonrecursive
    }
}

/// Which of the fixed words that can stand here the word is.
fn chosen(choice: Choice, word: &Word) -> Value
    ensures { result ≡ chosen_in choice word.now }
{
    match choice {
        Choice::Interface => Value::Interface(interface(word)),
        Choice::Policy => Value::Policy(policy(word)),
        Choice::Inherit => Value::Inherit(is_word(b"PTHREAD_INHERIT_SCHED", word)),
        Choice::Cancel => Value::Cancel(is_word(b"CANCEL_ON", word)),
        Choice::MutexKind => Value::Kind(kind(word)),
    }
}

/// The name that a parameter or local gets here.
fn own(word: &Word) -> Result<Option<Name>, ParseFault>
    ensures ok { IfOk result (λ name. name ≡ own_in word.now) }
    ensures fault { IfErr result (λ f. f ≡ ParseFault.NoMemory) }
{
    match word {
        Word::Name(name) => Ok(Some(name.clone()?)),
        _ => Ok(None),
    }
}

/// Whether the word says that there is no object of this kind.
fn is_absent(kind: Object, word: &Word) -> bool
    ensures { result ≡ is_one_of (absent_word kind ∷ []) word.now }
{
    match kind {
        Object::Routine => is_word(b"none", word),
        _ => is_word(b"default", word),
    }
}

/// The object that the word names, or that there is none.
#[tactic(auto, unfolding(crate::specs::Resolving::value_in))]
fn maybe(names: &Names, kind: Object, word: &Word) -> Value
    ensures { result ≡ value_in (scope_seen names.now) (Slot.ObjectOr kind) (Some (Raw word.now)) }
{
    if is_absent(kind, word) {
        Value::Maybe(None)
    } else {
        Value::Maybe(Some(names.id(word)))
    }
}

/// The parameter or local that the piece names; without a piece there is none.
fn receiver(names: &Names, piece: Option<Piece>) -> Value
    ensures { result ≡ receiver_in (scope_seen names.now) (maybe_piece piece.entry) }
{
    let zero = Word::Num(0);
    match piece {
        None => Value::Receiver(None),
        _ => Value::Receiver(Some(names.place(word_or(&piece, &zero)))),
    }
}

/// What stands in a slot, where this piece is what the words have there.
#[tactic(auto, unfolding(crate::specs::Resolving::value_in))]
pub fn value_in(names: &Names, slot: Slot, piece: Option<Piece>) -> Result<Value, ParseFault>
    ensures ok { IfOk result (λ v. v ≡ value_in (scope_seen names.now) slot (maybe_piece piece.entry)) }
    ensures fault { IfErr result (λ f. f ≡ ParseFault.NoMemory) }
{
    let zero = Word::Num(0);
    let word = word_or(&piece, &zero);
    match slot {
        Slot::Number => Ok(Value::Number(number(word))),
        Slot::Fixed(choice) => Ok(chosen(choice, word)),
        Slot::Declared(_) | Slot::Object(_) | Slot::Exception => Ok(Value::Id(names.id(word))),
        Slot::Parameter | Slot::Local => Ok(Value::Own(own(word)?)),
        Slot::ObjectOr(kind) => Ok(maybe(names, kind, word)),
        Slot::Variable => Ok(Value::Variable(names.variable(word))),
        Slot::Receiver => Ok(receiver(names, piece)),
        Slot::Expression => Ok(Value::Expression(expression(names, piece))),
    }
}
