//! The form of one line.

ghost use Rattle.std.specs.Prelude.{◌≡◌, ◌≢◌, ◌+◌, ◌^◌, ◌<◌, ◌≤◌, List, [], ◌∷◌, Some, None, IfOk, IfErr};
ghost use Rattle.thr_text.specs.declared.word.Word.{Word};
ghost use Rattle.thr_text.specs.Slots as text;
ghost use Rattle.thr_forms.specs.Pending.{slots_after, pending};

use crate::slots::can_stand;
use thr_lexer::words::Words;
use thr_text::head::{Head, Slot};
use thr_text::operands::{is_binary, is_word, may_operate};
use thr_text::word::Word;

/// The slots that are still to be filled: those for exceptions first, then those for expressions, then the others.
#[derive(Clone, Copy)]
struct Pending<'a> {
    exceptions: usize,
    expressions: usize,
    slots: &'a [Slot],
}

/// How many exceptions, or else how many expressions, the word wants after it where it stands in a slot for an expression.
fn operands(word: &Word) -> (usize, usize)
    ensures slots { text.operands_of word.now ≡ slots_after result.0 result.1 [] }
    ensures few { result.1 ≤ 2 }
{
    if !may_operate(word) {
        return (0, 0);
    }
    if is_binary(word) {
        return (0, 2);
    }
    if is_word(b"not", word) {
        return (0, 1);
    }
    if is_word(b"exc_get_status", word) {
        return (1, 0);
    }
    if is_word(b"exc_matches", word) {
        return (2, 0);
    }
    (0, 0)
}

/// What is left to fill after the word, which stands in a slot for an expression before so many others and these, or the
/// fault of the word.
fn fill_expression<'a>(
    expressions: usize,
    slots: &'a [Slot],
    word: &Word,
) -> Result<Pending<'a>, u8>
    requires { expressions + 2 < 2 ^ 64 }
    ensures ok { IfOk result (λ left. (ws : List Word) → text.misplaced (Slot.Expression ∷ slots_after 0 expressions slots.now) (word.now ∷ ws) ≡ text.misplaced (pending left) ws) }
    ensures err { IfErr result (λ n. (ws : List Word) → text.misplaced (Slot.Expression ∷ slots_after 0 expressions slots.now) (word.now ∷ ws) ≡ Some n) }
    ensures count { IfOk result (λ left. left.expressions ≤ expressions + 2) }
{
    if !can_stand(Slot::Expression, word) {
        return Err(6);
    }
    let (exceptions, more) = operands(word);
    Ok(Pending {
        exceptions,
        expressions: expressions + more,
        slots,
    })
}

/// What is left to fill after the word, which stands in a slot of another kind before these, or the fault of the word.
fn fill_other<'a>(slot: Slot, slots: &'a [Slot], word: &Word) -> Result<Pending<'a>, u8>
    requires { text.slots_behind slot word.now ≡ [] }
    ensures ok { IfOk result (λ left. (ws : List Word) → text.misplaced (slot ∷ slots.now) (word.now ∷ ws) ≡ text.misplaced (pending left) ws) }
    ensures err { IfErr result (λ n. (ws : List Word) → text.misplaced (slot ∷ slots.now) (word.now ∷ ws) ≡ Some n) }
    ensures count { IfOk result (λ left. left.expressions ≤ 2) }
{
    if !can_stand(slot, word) {
        return Err(6);
    }
    Ok(Pending {
        exceptions: 0,
        expressions: 0,
        slots,
    })
}

/// What is left to fill after the word, which stands in this slot before these, or the fault of the word.
fn fill_slot<'a>(slot: Slot, slots: &'a [Slot], word: &Word) -> Result<Pending<'a>, u8>
    ensures ok { IfOk result (λ left. (ws : List Word) → text.misplaced (slot ∷ slots.now) (word.now ∷ ws) ≡ text.misplaced (pending left) ws) }
    ensures err { IfErr result (λ n. (ws : List Word) → text.misplaced (slot ∷ slots.now) (word.now ∷ ws) ≡ Some n) }
    ensures count { IfOk result (λ left. left.expressions ≤ 2) }
{
    match slot {
        Slot::Expression => fill_expression(0, slots, word),
        _ => fill_other(slot, slots, word),
    }
}

/// What is left to fill after the word, or the fault of the word.
fn fill<'a>(slots: Pending<'a>, word: &Word) -> Result<Pending<'a>, u8>
    requires { slots.expressions + 2 < 2 ^ 64 }
    ensures ok { IfOk result (λ left. (ws : List Word) → text.misplaced (pending slots.entry) (word.now ∷ ws) ≡ text.misplaced (pending left) ws) }
    ensures err { IfErr result (λ n. (ws : List Word) → text.misplaced (pending slots.entry) (word.now ∷ ws) ≡ Some n) }
    ensures count { IfOk result (λ left. left.expressions ≤ slots.entry.expressions + 2) }
{
    if slots.exceptions > 0 {
        if !can_stand(Slot::Exception, word) {
            return Err(6);
        }
        return Ok(Pending {
            exceptions: slots.exceptions - 1,
            expressions: slots.expressions,
            slots: slots.slots,
        });
    }
    if slots.expressions > 0 {
        return fill_expression(slots.expressions - 1, slots.slots, word);
    }
    match slots.slots.split_first() {
        Some((slot, rest)) => fill_slot(*slot, rest, word),
        None => Err(7),
    }
}

/// Whether the line may end where these slots are left.
fn may_end(slots: Pending) -> bool
    ensures { result ≡ text.may_end (pending slots.entry) }
{
    if slots.exceptions > 0 {
        return false;
    }
    if slots.expressions > 0 {
        return false;
    }
    match slots.slots {
        [] => true,
        [Slot::Receiver] => true,
        _ => false,
    }
}

/// The fault of the words at these slots.
fn misplaced(slots: &[Slot], words: &[Word]) -> Option<u8>
    ensures { result ≡ text.misplaced slots.now words.now }
{
    let mut left = Pending {
        exceptions: 0,
        expressions: 0,
        slots,
    };
    for word in words {
        match fill(left, word) {
            Ok(slots) => left = slots,
            Err(fault) => return Some(fault),
        }
    }
    if may_end(left) { None } else { Some(7) }
}

/// The head whose word this is.
fn head_at(word: &Word) -> Option<Head>
    ensures { result ≡ text.head_at (text.text_of word.now) }
{
    match word {
        Word::Num(_) => None,
        Word::Name(name) => Head::of(name.as_slice()),
        Word::Mark(mark) => Head::of(mark.as_slice()),
    }
}

/// The head of a line that begins with this word, or the fault of the line.
fn form_from(first: &Word, others: &[Word]) -> Result<Head, u8>
    ensures head { IfOk result (λ h. text.head_of_line (first.now ∷ others.now) ≡ Some h) }
    ensures form { IfOk result (λ h. text.form_fault (first.now ∷ others.now) ≡ None) }
    ensures fault { IfErr result (λ n. text.form_fault (first.now ∷ others.now) ≡ Some n) }
{
    match head_at(first) {
        Some(head) => match misplaced(head.slots(), others) {
            Some(fault) => Err(fault),
            None => Ok(head),
        },
        None => Err(6),
    }
}

/// The head of a line with these words that isn't the first, or its fault, which is F6 or F7 by its number.
pub fn form_of(words: &Words) -> Result<Head, u8>
    requires { words.now ≢ [] }
    ensures head { IfOk result (λ h. text.head_of_line words.now ≡ Some h) }
    ensures form { IfOk result (λ h. text.form_fault words.now ≡ None) }
    ensures fault { IfErr result (λ n. text.form_fault words.now ≡ Some n) }
{
    match words.as_slice().split_first() {
        Some((first, others)) => form_from(first, others),
        None => Err(6),
    }
}

/// Whether these are the words of a first line.
pub fn is_header(words: &Words) -> bool
    ensures { result ≡ text.is_header words.now }
{
    match words.as_slice() {
        [Word::Name(name), Word::Num(n)] => name.as_slice() == b"dcethr".as_slice() && *n == 1,
        _ => false,
    }
}
