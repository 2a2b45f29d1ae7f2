//! The lines of a text.

ghost use Rattle.std.specs.Prelude.{◌≡◌, ◌≢◌, ◌∷◌, ◌++◌, ◌+◌, ◌-◌, ◌||◌, ◌==◌, ◌^◌, ◌<◌, ◌≤◌, [], length, position, true, false, MatchOption, IfSome, IfOk, IfErr};
ghost use Rattle.std.specs.Str.Lines.{lines, strip_carriage_return};
ghost use Rattle.thr_text.specs.Lexing.{words_of};
ghost use Rattle.thr_text.specs.Faults.{word_faults};
ghost use Rattle.thr_text.specs.Blocks.{at_line};
ghost use Rattle.thr_text.specs.Reading.{has_words, form_faults, scan_faults, line_at, lines_from, script_lines, end_of};
ghost use Rattle.thr_text.specs.Refusals.{IsFirst};

use crate::form::{form_of, is_header};
use std::alloc::Global;
use thr_lexer::fault::LexFault;
use thr_lexer::lex::lex_line;
use thr_lexer::line::Line;
use thr_lexer::words::Words;
use thr_text::fault::{ParseFault, Place};

/// A text whose lines have no fault by themselves.
#[derive(Drop)]
pub struct Reading {
    /// The lines with words after the first such line, in their order.
    pub lines: Vec<Line>,
    /// The number of the line after the last, 1 for an empty text.
    pub end: u32,
}

fn line_end(rest: &[u8]) -> Option<usize>
    ensures { result ≡ position (λ b. b == 10) rest.now }
{
    rest.iter().position(|b| *b == b'\n')
}

fn without_cr(line: &[u8]) -> &[u8]
    ensures { result.now ≡ strip_carriage_return line.now }
{
    if !line.is_empty() && line[line.len() - 1] == b'\r' {
        &line[..line.len() - 1]
    } else {
        line
    }
}

/// The next line without its ending, and what is left.
fn next_line(rest: &[u8]) -> Option<(&[u8], &[u8])>
    ensures lines { MatchOption result (lines rest.now ≡ []) (λ x. lines rest.now ≡ x.0.now ∷ lines x.1.now) }
    ensures less { IfSome result (λ x. length x.1.now < length rest.now) }
{
    if rest.is_empty() {
        return None;
    }
    match line_end(rest) {
        Some(at) => Some((without_cr(&rest[..at]), &rest[at + 1..])),
        None => Some((rest, &rest[rest.len()..])),
    }
}

/// The refusal of a text for a fault at a line.
fn refused(line: u32, number: u8) -> ParseFault
    ensures { result ≡ ParseFault.Refused record { number = number; line = line } }
{
    ParseFault::Refused(Place { number, line })
}

/// The words of the line at this number.
fn words_at(alloc: Global, at: u32, line: &[u8]) -> Result<Words, ParseFault>
    ensures words { IfOk result (λ ws. (word_faults line.now ≡ []) × (ws ≡ words_of line.now)) }
    ensures fault { IfErr result (λ f. IsFirst f (at_line at (word_faults line.now))) }
{
    match lex_line(alloc, line) {
        Ok(words) => Ok(words),
        Err(LexFault::F1) => Err(refused(at, 1)),
        Err(LexFault::F2) => Err(refused(at, 2)),
        Err(LexFault::F3) => Err(refused(at, 3)),
        Err(LexFault::F4) => Err(refused(at, 4)),
        Err(LexFault::NoMemory) => Err(ParseFault::NoMemory),
    }
}

/// The line of these words, or what it is refused for.
fn formed(at: u32, words: Words) -> Result<Line, ParseFault>
    requires { words ≢ [] }
    ensures line { IfOk result (λ l. (l ≡ (at, words)) × (form_faults true words ≡ [])) }
    ensures fault { IfErr result (λ f. IsFirst f (at_line at (form_faults true words))) }
{
    match form_of(&words) {
        Ok(head) => Ok(Line::new(at, head, words)),
        Err(number) => Err(refused(at, number)),
    }
}

/// Keeps the line of these words, if it is one that the other passes see, and answers whether a line with words has come.
fn keep(kept: &mut Vec<Line>, seen: bool, at: u32, words: Words) -> Result<bool, ParseFault>
    ensures faults { IfOk result (λ s. form_faults seen words ≡ []) }
    ensures kept { IfOk result (λ s. kept.new.items ≡ kept.old.items ++ line_at at seen words) }
    ensures seen { IfOk result (λ s. s ≡ (seen || has_words words)) }
    ensures fault { IfErr result (λ f. IsFirst f (at_line at (form_faults seen words))) }
{
    if words.is_empty() {
        return Ok(seen);
    }
    if seen {
        kept.push(formed(at, words)?)?;
        return Ok(true);
    }
    if is_header(&words) {
        Ok(true)
    } else {
        Err(refused(at, 5))
    }
}

/// The first pass: the lines of a text, or its first line that has a fault by itself (docs/script.md, "Faults"). Lines are
/// read up to that one, and each byte is looked at a bounded number of times.
pub fn read_lines(alloc: Global, bytes: &[u8]) -> Result<Reading, ParseFault>
    requires { length bytes.now < 2 ^ 32 - 1 }
    ensures plain { IfOk result (λ r. scan_faults 1 false (lines bytes.now) ≡ []) }
    ensures lines { IfOk result (λ r. r.lines.items ≡ script_lines bytes.now) }
    ensures end { IfOk result (λ r. r.end ≡ end_of bytes.now) }
    ensures fault { IfErr result (λ f. IsFirst f (scan_faults 1 false (lines bytes.now))) }
{
    let mut kept = Vec::new(alloc);
    let mut at: u32 = 1;
    let mut seen = false;
    let mut rest = bytes;
    while let Some((line, after)) = next_line(rest) {
        let words = words_at(alloc, at, line)?;
        seen = keep(&mut kept, seen, at, words)?;
        at += 1;
        rest = after;
    }
    if !seen {
        return Err(refused(at, 5));
    }
    Ok(Reading {
        lines: kept,
        end: at,
    })
}
