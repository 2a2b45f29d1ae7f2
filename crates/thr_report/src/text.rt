//! The text of a report.

#![tactic(auto, using(thr_grammar::proofs::SpacedLaws::line_laws))]

ghost use Rattle.std.specs.Prelude.{◌≡◌, ◌++◌, ◌∷◌, [], codes, IfOk, OnOk};
ghost use Rattle.std.specs.Fmt.{decimal};
ghost use Rattle.thr_syntax.specs.Canon.{line};
ghost use Rattle.thr_syntax.specs.Spelling.{name_at};
ghost use Rattle.thr_verdict.specs.Report.{count_line, mutex_lines, counts_text};
ghost use Rattle.thr_text.specs.Journals.{name_word};
ghost use Rattle.thr_report.specs.Reports.{counts_in, numbers_text};

use crate::counts::Report;
use std::alloc::{AllocError, Global};
use thr_journal::add_stop;
use thr_syntax::tree::Script;
use thr_values::name::Name;
use thr_values::number::{NameId, NoMemory};

/// Adds a line of a word and a number.
fn add_count(out: &mut Vec<u8>, word: &[u8], n: u64) -> Result<(), AllocError>
    ensures { OnOk result (out.new.items ≡ out.old.items ++ count_line word.now n) }
{
    let number = n.to_string(*out.allocator())?;
    out.extend_from_slice(word)?;
    out.push(b' ')?;
    out.extend_from_slice(number.as_bytes())?;
    out.push(b'\n')?;
    Ok(())
}

fn name_at(names: &[Name], place: usize) -> &[u8]
    ensures { result.now ≡ name_at names.now place }
{
    match names.get(place) {
        Some(name) => name.as_slice(),
        None => b"",
    }
}

/// Adds the line of a mutex.
fn add_mutex(out: &mut Vec<u8>, names: &[Name], name: NameId, n: u64) -> Result<(), AllocError>
    ensures { OnOk result (out.new.items ≡ out.old.items ++ line (codes "mutex" ∷ name_word names.now name ∷ decimal n ∷ [])) }
{
    let number = n.to_string(*out.allocator())?;
    out.extend_from_slice(b"mutex ")?;
    out.extend_from_slice(name_at(names, usize::from(name.0)))?;
    out.push(b' ')?;
    out.extend_from_slice(number.as_bytes())?;
    out.push(b'\n')?;
    Ok(())
}

/// Adds the lines of the mutexes.
fn add_mutexes(
    out: &mut Vec<u8>,
    names: &[Name],
    acquired: &[(NameId, u64)],
) -> Result<(), AllocError>
    ensures { OnOk result (out.new.items ≡ out.old.items ++ mutex_lines names.now acquired.now) }
{
    for (name, n) in acquired {
        add_mutex(out, names, *name, *n)?;
    }
    Ok(())
}

/// Adds the lines of the counts, those of mutexes apart.
fn add_counts(out: &mut Vec<u8>, r: &Report) -> Result<(), AllocError>
    ensures { OnOk result (out.new.items ≡ out.old.items ++ numbers_text (counts_in r.now)) }
{
    add_count(out, b"lines", r.lines)?;
    add_count(out, b"threads", r.threads)?;
    add_count(out, b"ended", r.ended)?;
    add_count(out, b"calls", r.calls)?;
    add_count(out, b"blocked", r.blocked)?;
    add_count(out, b"raised", r.raised)?;
    add_count(out, b"delivered", r.delivered)?;
    add_count(out, b"caught", r.caught)?;
    Ok(())
}

fn text_of(alloc: Global, r: &Report, s: &Script) -> Result<Vec<u8>, AllocError>
    ensures { IfOk result (λ v. v.items ≡ counts_text s.now.names (counts_in r.now) r.now.stop) }
{
    let mut out = Vec::new(alloc);
    add_counts(&mut out, r)?;
    add_mutexes(&mut out, s.names.as_slice(), r.acquired.as_slice())?;
    add_stop(&mut out, r.stop)?;
    Ok(out)
}

/// The text of a report on a journal of this script, with the end of its last line.
pub fn report_text(alloc: Global, r: &Report, s: &Script) -> Result<Vec<u8>, NoMemory>
    ensures { IfOk result (λ v. v.items ≡ counts_text s.now.names (counts_in r.now) r.now.stop) }
{
    text_of(alloc, r, s).map_err(|_| NoMemory)
}
