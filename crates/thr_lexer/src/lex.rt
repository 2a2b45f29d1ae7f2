//! A line as its words.

ghost use Rattle.std.specs.Prelude.{◌≡◌, ◌-◌, ◌^◌, ◌≤◌, ◌⊎◌, fold, pos, neg_ℤ, nat_lt, true, false, List, [], map, min, length, position, IfOk, IfErr, IfSome, is_none};
ghost use Rattle.std.specs.List.{list_any, list_all, before_first};
ghost use Rattle.std.specs.Char.{is_ascii_digit};
ghost use Rattle.thr_text.specs.Lexing.{is_plain, is_blank, is_hash, pieces_between, has_minus, digits_of, has_number_form, and_digit, value_of, is_too_large, word_of, words_of};
ghost use Rattle.thr_text.specs.Faults.{word_faults};
ghost use Rattle.thr_lexer.specs.Refusals.{Refuses};

use crate::fault::LexFault;
use crate::words::Words;
use std::alloc::Global;
use thr_text::mark::Mark;
use thr_text::names::has_name_form;
use thr_text::word::Word;
use thr_values::name::Name;

fn is_plain_line(line: &[u8]) -> bool
    ensures { result ≡ list_all is_plain line.now }
{
    line.iter().all(|b| matches!(b, b'\t' | b' '..=b'~'))
}

fn hash_in(line: &[u8]) -> Option<usize>
    ensures { result ≡ position is_hash line.now }
{
    line.iter().position(|b| *b == b'#')
}

fn before_comment(line: &[u8]) -> &[u8]
    ensures { result.now ≡ before_first is_hash line.now }
{
    match hash_in(line) {
        Some(at) => &line[..at],
        None => line,
    }
}

fn is_blank(byte: u8) -> bool
    ensures { result ≡ is_blank byte }
{
    matches!(byte, b' ' | b'\t')
}

fn starts_with_minus(text: &[u8]) -> bool
    ensures { result ≡ has_minus text.now }
{
    !text.is_empty() && text[0] == b'-'
}

fn digits(text: &[u8]) -> &[u8]
    ensures { result.now ≡ digits_of text.now }
{
    if starts_with_minus(text) {
        &text[1..]
    } else {
        text
    }
}

fn all_digits(text: &[u8]) -> bool
    ensures { result ≡ list_all is_ascii_digit text.now }
{
    text.iter().all(|b| b.is_ascii_digit())
}

#[tactic(auto, unfolding(thr_text::specs::Lexing::has_number_form))]
fn has_number_form(text: &[u8]) -> bool
    ensures { result ≡ has_number_form text.now }
{
    let text = digits(text);
    !text.is_empty() && all_digits(text)
}

/// The number that the digits are, or the greatest `u64` where it is greater.
fn value(digits: &[u8]) -> u64
    ensures { result ≡ min (fold and_digit 0 digits.now) (2 ^ 64 - 1) }
{
    let mut total: u64 = 0;
    for b in digits {
        total = total
            .saturating_mul(10)
            .saturating_add(u64::from(b.saturating_sub(b'0')));
    }
    total
}

fn below_zero(size: u64) -> Option<i64>
    ensures none { is_none result ≡ nat_lt (2 ^ 63) size }
    ensures value { IfSome result (λ n. n ≡ neg_ℤ (pos size)) }
{
    if size <= 9_223_372_036_854_775_808 {
        Some(0i64.wrapping_sub_unsigned(size))
    } else {
        None
    }
}

/// The number of a text that has the form of one, or nothing where it lies outside `i64`.
#[tactic(auto, unfolding(thr_text::specs::Lexing::magnitude, thr_text::specs::Lexing::is_too_large))]
fn number(text: &[u8]) -> Option<i64>
    requires { has_number_form text.now ≡ true }
    ensures large { is_too_large text.now ≡ is_none result }
    ensures value { IfSome result (λ n. n ≡ value_of text.now) }
{
    let size = value(digits(text));
    if starts_with_minus(text) {
        below_zero(size)
    } else {
        i64::try_from(size).ok()
    }
}

/// The word of a text that has not the form of a number.
#[tactic(auto, unfolding(thr_text::specs::Lexing::word_of, thr_text::specs::Names::has_name_form))]
fn name_or_mark(alloc: Global, text: &[u8]) -> Result<Word, LexFault>
    requires { has_number_form text.now ≡ false }
    ensures word { IfOk result (λ w. w ≡ word_of text.now) }
    ensures fault { IfErr result (λ f. f ≡ LexFault.NoMemory) }
{
    if has_name_form(text) {
        Ok(Word::Name(Name::from_slice(alloc, text)?))
    } else {
        Ok(Word::Mark(Mark::from_slice(alloc, text)?))
    }
}

#[tactic(auto, unfolding(thr_text::specs::Lexing::word_of, thr_text::specs::Lexing::is_too_large))]
fn read_word(alloc: Global, text: &[u8]) -> Result<Word, LexFault>
    ensures word { IfOk result (λ w. (w ≡ word_of text.now) × (is_too_large text.now ≡ false)) }
    ensures fault { IfErr result (λ f. (f ≡ LexFault.NoMemory) ⊎ ((f ≡ LexFault.F3) × (is_too_large text.now ≡ true))) }
{
    if !has_number_form(text) {
        return name_or_mark(alloc, text);
    }
    match number(text) {
        Some(n) => Ok(Word::Num(n)),
        None => Err(LexFault::F3),
    }
}

/// The words of what stands before the comment, however many they are.
fn read_words(alloc: Global, text: &[u8]) -> Result<Words, LexFault>
    ensures words { IfOk result (λ ws. (ws ≡ map word_of (pieces_between text.now)) × (list_any is_too_large (pieces_between text.now) ≡ false)) }
    ensures fault { IfErr result (λ f. (f ≡ LexFault.NoMemory) ⊎ ((f ≡ LexFault.F3) × (list_any is_too_large (pieces_between text.now) ≡ true))) }
{
    // Words lie apart, so that half of the bytes begin one at most.
    let room = text.len().div_ceil(2).min(24);
    let mut words = Words::new(alloc);
    for piece in text.split(|b| is_blank(*b)) {
        if !piece.is_empty() {
            words.push(read_word(alloc, piece)?, room)?;
        }
    }
    Ok(words)
}

/// The words of one line without its ending, or the least fault of the line (docs/script.md, "Words" and "Faults"). The
/// reader of scripts calls it for each line. Each byte is looked at a bounded number of times. Memory is taken for the list,
/// once where the line has 3 to 24 words, and for the texts of names and marks.
pub fn lex_line(alloc: Global, line: &[u8]) -> Result<Words, LexFault>
    ensures words { IfOk result (λ ws. (word_faults line.now ≡ []) × (ws ≡ words_of line.now)) }
    ensures few { IfOk result (λ ws. length ws ≤ 24) }
    ensures fault { IfErr result (λ f. Refuses f (word_faults line.now)) }
{
    if !is_plain_line(line) {
        return Err(LexFault::F1);
    }
    if line.len() > 240 {
        return Err(LexFault::F2);
    }
    let words = read_words(alloc, before_comment(line))?;
    if words.len() > 24 {
        return Err(LexFault::F4);
    }
    Ok(words)
}
