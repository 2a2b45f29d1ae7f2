//! The words that can stand in slots.

ghost use Rattle.std.specs.Prelude.{◌≡◌, [], ◌∷◌, map};
ghost use Rattle.std.specs.List.{list_any};
ghost use Rattle.std.specs.Str.{bytes_eq};
ghost use Rattle.thr_text.specs.Slots as text;

use thr_text::head::{Choice, Slot};
use thr_text::names::is_name;
use thr_text::object::Object;
use thr_text::operands::{is_one_of, is_word};
use thr_text::word::Word;

/// The words of an expression that are neither numbers nor names.
const EXPRESSION: [&[u8]; 18] = [
    b"self",
    b"err",
    b"not",
    b"exc_get_status",
    b"exc_matches",
    b"+",
    b"-",
    b"*",
    b"/",
    b"%",
    b"==",
    b"!=",
    b"<",
    b"<=",
    b">",
    b">=",
    b"and",
    b"or",
];

fn is_a_name(word: &Word) -> bool
    ensures { result ≡ text.is_a_name word.now }
{
    match word {
        Word::Num(_) => false,
        Word::Name(name) => is_name(name.as_slice()),
        Word::Mark(_) => false,
    }
}

fn is_a_number(word: &Word) -> bool
    ensures { result ≡ text.is_a_number word.now }
{
    match word {
        Word::Num(_) => true,
        Word::Name(_) => false,
        Word::Mark(_) => false,
    }
}

fn choice_words(choice: Choice) -> &'static [&'static [u8]]
    ensures { map (λ t. t.now) result.now ≡ text.choice_words choice }
{
    match choice {
        Choice::Interface => &[b"exc", b"status"],
        Choice::Policy => &[b"SCHED_FIFO", b"SCHED_RR", b"SCHED_FG_NP", b"SCHED_BG_NP"],
        Choice::Inherit => &[b"PTHREAD_INHERIT_SCHED", b"PTHREAD_DEFAULT_SCHED"],
        Choice::Cancel => &[b"CANCEL_ON", b"CANCEL_OFF"],
        Choice::MutexKind => &[
            b"MUTEX_FAST_NP",
            b"MUTEX_RECURSIVE_NP",
            b"MUTEX_NONRECURSIVE_NP",
        ],
    }
}

/// The word that says that there is no object of this kind.
fn absent_words(kind: Object) -> &'static [&'static [u8]]
    ensures { map (λ t. t.now) result.now ≡ text.absent_word kind ∷ [] }
{
    match kind {
        Object::Routine => &[b"none"],
        _ => &[b"default"],
    }
}

/// Whether the word is a number or a name, or a fixed word of expressions.
fn is_of_expression(word: &Word) -> bool
    ensures { result ≡ text.can_stand Slot.Expression word.now }
{
    is_a_number(word) || (is_a_name(word) || is_one_of(&EXPRESSION, word))
}

/// Whether the word can stand in the slot.
pub fn can_stand(slot: Slot, word: &Word) -> bool
    ensures { result ≡ text.can_stand slot word.now }
{
    match slot {
        Slot::Number => is_a_number(word),
        Slot::Fixed(choice) => is_one_of(choice_words(choice), word),
        Slot::Declared(_) | Slot::Object(_) => is_a_name(word),
        Slot::Parameter | Slot::Local | Slot::Variable | Slot::Receiver => is_a_name(word),
        Slot::ObjectOr(kind) => is_a_name(word) || is_one_of(absent_words(kind), word),
        Slot::Exception => is_a_name(word) || is_word(b"this", word),
        Slot::Expression => is_of_expression(word),
    }
}
