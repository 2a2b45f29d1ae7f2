//! The text of a verdict.

#![tactic(auto, using(thr_grammar::proofs::SpacedLaws::line_laws))]

ghost use Rattle.std.specs.Prelude.{◌≡◌, ◌++◌, ◌∷◌, [], IfOk, OnOk};
ghost use Rattle.thr_syntax.specs.Canon.{line};
ghost use Rattle.thr_syntax.specs.declared.journal.Journal.{Journal};
ghost use Rattle.thr_verdict.specs.FirstWrong.{first_wrong};
ghost use Rattle.thr_verdict.specs.Verdicts.{verdict_text};
ghost use Rattle.thr_comparing.specs.Verdicts.{IsVerdict, number_line, should_text, difference_text, text_of};

use crate::verdict::{Differs, Verdict};
use sqlite_items::Items;
use std::alloc::{AllocError, Global};
use thr_values::number::NoMemory;

/// Adds a line of a word and a text.
fn add_line(out: &mut Vec<u8>, word: &[u8], text: &[u8]) -> Result<(), AllocError>
    ensures { OnOk result (out.new.items ≡ out.old.items ++ line (word.now ∷ text.now ∷ [])) }
{
    out.extend_from_slice(word)?;
    out.push(b' ')?;
    out.extend_from_slice(text)?;
    out.push(b'\n')?;
    Ok(())
}

/// Adds the line with the number of the line that differs.
fn add_number(out: &mut Vec<u8>, n: u32) -> Result<(), AllocError>
    ensures { OnOk result (out.new.items ≡ out.old.items ++ number_line n) }
{
    let number = n.to_string(*out.allocator())?;
    out.extend_from_slice(b"illegal line ")?;
    out.extend_from_slice(number.as_bytes())?;
    out.push(b'\n')?;
    Ok(())
}

/// What is to stand there, or the word for nothing.
fn should_text(should: &Option<Items<u8>>) -> &[u8]
    ensures { result.now ≡ should_text should.now }
{
    match should {
        Some(text) => text.as_slice(),
        None => b"nothing",
    }
}

/// Adds the lines of a verdict that isn't legal.
fn add_difference(out: &mut Vec<u8>, d: &Differs) -> Result<(), AllocError>
    ensures { OnOk result (out.new.items ≡ out.old.items ++ difference_text d.now) }
{
    add_number(out, d.line)?;
    add_line(out, b"has", d.has.as_slice())?;
    add_line(out, b"should", should_text(&d.should))?;
    Ok(())
}

fn text_of(alloc: Global, v: &Verdict) -> Result<Vec<u8>, AllocError>
    ensures { IfOk result (λ t. t.items ≡ text_of v.now) }
{
    let mut out = Vec::new(alloc);
    match v {
        Verdict::Legal => out.extend_from_slice(b"legal\n")?,
        Verdict::Illegal(d) => add_difference(&mut out, d)?,
    }
    Ok(out)
}

/// The text of a verdict, with the end of its last line (docs/journal.md, "The verdict").
pub fn verdict_text(alloc: Global, v: &Verdict) -> Result<Vec<u8>, NoMemory>
    ensures lines { IfOk result (λ t. t.items ≡ text_of v.now) }
    ensures defined { IfOk result (λ t. (j : Journal) → IsVerdict j v.now → t.items ≡ verdict_text j.script (first_wrong j)) }
{
    match text_of(alloc, v) {
        Ok(text) => Ok(text),
        Err(_) => Err(NoMemory),
    }
}
