//! The operators of expressions.

ghost use Rattle.std.specs.Prelude.{◌≡◌};
ghost use Rattle.thr_resolving.specs.Resolving.{operator_in};

use thr_syntax::expr::Op;
use thr_text::operands::is_word;
use thr_text::word::Word;

/// The operator of two operands that the word is, or else `or`.
pub fn operator(word: &Word) -> Op
    ensures { result ≡ operator_in word.now }
{
    if is_word(b"+", word) {
        Op::Add
    } else if is_word(b"-", word) {
        Op::Sub
    } else if is_word(b"*", word) {
        Op::Mul
    } else if is_word(b"/", word) {
        Op::Div
    } else if is_word(b"%", word) {
        Op::Rem
    } else if is_word(b"==", word) {
        Op::Equal
    } else if is_word(b"!=", word) {
        Op::Differs
    } else if is_word(b"<", word) {
        Op::Less
    } else if is_word(b"<=", word) {
        Op::AtMost
    } else if is_word(b">", word) {
        Op::Greater
    } else if is_word(b">=", word) {
        Op::AtLeast
    } else if is_word(b"and", word) {
        Op::And
    } else {
        Op::Or
    }
}
