//! The text of a journal (docs/journal.md).

ghost use Rattle.std.specs.Prelude.{◌≡◌, ◌++◌, ◌∷◌, [], codes, IfOk, OnOk};
ghost use Rattle.std.specs.Fmt.{decimal};
ghost use Rattle.thr_syntax.specs.Canon.{line, canon};
ghost use Rattle.thr_text.specs.Journals.{text, numbered_line, numbered, stop_words};
ghost use Rattle.thr_text.specs.Reading.{Formed};

mod call;
mod line;
mod word;

use crate::printing::line::add_what;
use crate::printing::word::{add_count, add_thread, add_who};
use std::alloc::{AllocError, Global};
use thr_limits::limits::line_count;
use thr_syntax::journal::Journal;
use thr_syntax::tree::Script;
use thr_values::event::Stop;
use thr_values::history::Entry;
use thr_values::name::Name;
use thr_values::number::{NoMemory, Tid};

/// Adds a line of a word and a number.
#[tactic(auto, using(thr_grammar::proofs::SpacedLaws::line_laws))]
fn add_counted_line(out: &mut Vec<u8>, word: &[u8], count: u32) -> Result<(), AllocError>
    ensures { OnOk result (out.new.items ≡ out.old.items ++ line (word.now ∷ decimal count ∷ [])) }
{
    out.extend_from_slice(word)?;
    add_count(out, u64::from(count))?;
    out.push(b'\n')?;
    Ok(())
}

/// Adds the canonical text of a script.
fn add_script(alloc: Global, out: &mut Vec<u8>, script: &Script) -> Result<(), AllocError>
    ensures { OnOk result (out.new.items ≡ out.old.items ++ canon script.now) }
{
    match thr_grammar::print(alloc, script) {
        Ok(text) => out.extend_from_slice(text.as_slice()),
        Err(_) => Err(AllocError),
    }
}

/// Adds a line of the history with its number, and its end.
#[tactic(auto, using(thr_grammar::proofs::SpacedLaws::line_laws))]
pub fn add_entry(
    out: &mut Vec<u8>,
    names: &[Name],
    number: u64,
    entry: &Entry,
) -> Result<(), AllocError>
    ensures { OnOk result (out.new.items ≡ out.old.items ++ numbered_line names.now number entry.now) }
{
    let number = number.to_string(*out.allocator())?;
    out.extend_from_slice(number.as_bytes())?;
    add_who(out, entry.who)?;
    add_what(out, names, &entry.what)?;
    out.push(b'\n')?;
    Ok(())
}

/// Adds the lines of the history, numbered from 1 on.
#[tactic(auto, unfolding(thr_text::specs::Journals::numbered))]
fn add_entries(out: &mut Vec<u8>, names: &[Name], entries: &[Entry]) -> Result<(), AllocError>
    ensures { OnOk result (out.new.items ≡ out.old.items ++ numbered names.now 1 entries.now) }
{
    let mut number: u64 = 1;
    for entry in entries {
        add_entry(out, names, number, entry)?;
        number = number.saturating_add(1);
    }
    Ok(())
}

/// Adds the stop line of a deadlock.
#[tactic(auto, using(thr_grammar::proofs::SpacedLaws::line_laws))]
fn add_deadlock(out: &mut Vec<u8>, count: u32, least: Tid) -> Result<(), AllocError>
    ensures { OnOk result (out.new.items ≡ out.old.items ++ line (stop_words (Stop.Deadlock count least))) }
{
    out.extend_from_slice(b"stop deadlock")?;
    add_count(out, u64::from(count))?;
    add_thread(out, least)?;
    out.push(b'\n')?;
    Ok(())
}

/// Adds the stop line, with its end.
pub fn add_stop(out: &mut Vec<u8>, stop: Stop) -> Result<(), AllocError>
    ensures { OnOk result (out.new.items ≡ out.old.items ++ line (stop_words stop)) }
{
    match stop {
        Stop::Finished => out.extend_from_slice(b"stop finished\n"),
        Stop::Deadlock(count, least) => add_deadlock(out, count, least),
        Stop::Limit => out.extend_from_slice(b"stop limit\n"),
        Stop::Memory => out.extend_from_slice(b"stop memory\n"),
    }
}

/// The text of a journal, with the end of its last line. Nothing is asked of the lines of its history.
pub fn print(alloc: Global, journal: &Journal) -> Result<Vec<u8>, NoMemory>
    requires { Formed journal.now.script }
    ensures { IfOk result (λ v. v.items ≡ text journal.now.script journal.now.workers journal.now.entries journal.now.stop) }
{
    text_of(alloc, journal).map_err(|_| NoMemory)
}

fn text_of(alloc: Global, journal: &Journal) -> Result<Vec<u8>, AllocError>
    requires { Formed journal.now.script }
    ensures { IfOk result (λ v. v.items ≡ text journal.now.script journal.now.workers journal.now.entries journal.now.stop) }
{
    let mut out = Vec::new(alloc);
    let script = &journal.script;
    out.extend_from_slice(b"dcethr journal 1\n")?;
    add_counted_line(&mut out, b"workers", journal.workers)?;
    add_counted_line(&mut out, b"script", line_count(script))?;
    add_script(alloc, &mut out, script)?;
    out.extend_from_slice(b"history\n")?;
    add_entries(
        &mut out,
        script.names.as_slice(),
        journal.entries.as_slice(),
    )?;
    add_stop(&mut out, journal.stop)?;
    Ok(out)
}
