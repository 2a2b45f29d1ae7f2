//! The words of expressions, and the operands that they want.

ghost use Rattle.std.specs.Prelude.{◌≡◌, map, false, [], ◌∷◌};
ghost use Rattle.thr_text.specs.Groups.{may_operate_text, may_operate, IsNoOperator};
ghost use Rattle.thr_text.specs.Slots.{binary_words, is_one_of, operands_of};

use crate::head::Slot;
use crate::names::{is_in, is_letter};
use crate::word::Word;

/// The operators of two operands.
const BINARY: [&[u8]; 13] = [
    b"+", b"-", b"*", b"/", b"%", b"==", b"!=", b"<", b"<=", b">", b">=", b"and", b"or",
];

/// Whether the word is one of these texts; a number is none.
#[tactic(auto, using(crate::proofs::AnyMap::any_map))]
pub fn is_one_of(texts: &[&[u8]], word: &Word) -> bool
    ensures { result ≡ is_one_of (map (λ t. t.now) texts.now) word.now }
{
    match word {
        Word::Num(_) => false,
        Word::Name(name) => is_in(texts, name.as_slice()),
        Word::Mark(mark) => is_in(texts, mark.as_slice()),
    }
}

/// Whether the word is this text; a number is none.
#[tactic(auto, using(crate::proofs::GroupLaws::or_none))]
pub fn is_word(text: &[u8], word: &Word) -> bool
    ensures { result ≡ is_one_of (text.now ∷ []) word.now }
{
    match word {
        Word::Num(_) => false,
        Word::Name(name) => name.as_slice() == text,
        Word::Mark(mark) => mark.as_slice() == text,
    }
}

/// Whether a text may be an operator: most words of scripts are told to be none by their first byte and their length.
#[tactic(auto, unfolding(crate::specs::Groups::may_operate_text))]
fn may_operate_text(text: &[u8]) -> bool
    ensures { result ≡ may_operate_text text.now }
{
    if text.is_empty() {
        return false;
    }
    !is_letter(text[0]) || (text.len() > 1 && matches!(text[0], b'a' | b'e' | b'n' | b'o'))
}

/// Whether the word may be an operator.
#[tactic(auto, using(crate::proofs::GroupLaws::no_operator))]
pub fn may_operate(word: &Word) -> bool
    ensures test { result ≡ may_operate word.now }
    ensures none { result ≡ false → IsNoOperator word.now }
{
    match word {
        Word::Num(_) => false,
        Word::Name(name) => may_operate_text(name.as_slice()),
        Word::Mark(mark) => may_operate_text(mark.as_slice()),
    }
}

/// Whether the word is an operator of two operands.
pub fn is_binary(word: &Word) -> bool
    ensures { result ≡ is_one_of binary_words word.now }
{
    if !may_operate(word) {
        return false;
    }
    is_one_of(&BINARY, word)
}

/// The operands that a word of an expression wants, from the left.
pub fn operands(word: &Word) -> &'static [Slot]
    ensures { result.now ≡ operands_of word.now }
{
    if !may_operate(word) {
        &[]
    } else if is_binary(word) {
        &[Slot::Expression, Slot::Expression]
    } else if is_word(b"not", word) {
        &[Slot::Expression]
    } else if is_word(b"exc_get_status", word) {
        &[Slot::Exception]
    } else if is_word(b"exc_matches", word) {
        &[Slot::Exception, Slot::Exception]
    } else {
        &[]
    }
}
