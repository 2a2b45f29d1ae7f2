//! The texts of lines of a journal.

ghost use Rattle.std.specs.Prelude.{◌≡◌, ◌≤◌, ◌+◌, length, IfOk};
ghost use Rattle.std.specs.Option.{option_map};
ghost use Rattle.thr_verdict.specs.Verdicts.{Numbered, Stopped, line_at, differs_at};
ghost use Rattle.thr_text.specs.Reading.{Formed};
ghost use Rattle.thr_comparing.specs.Wrongs.{line_of, told};
ghost use Rattle.thr_comparing.specs.Verdicts.{line_text, IsText};

use crate::verdict::Differs;
use crate::wrong::{Right, Wrong};
use sqlite_items::Items;
use std::alloc::Global;
use thr_journal::{add_entry, add_stop};
use thr_limits::limits::line_count;
use thr_syntax::journal::Journal;
use thr_trees::laws::lines_and_names_are_few;
use thr_values::event::Stop;
use thr_values::history::Entry;
use thr_values::name::Name;
use thr_values::number::NoMemory;

/// The text of a line of the history with its number.
fn entry_text(
    alloc: Global,
    names: &[Name],
    number: u32,
    entry: &Entry,
) -> Result<Items<u8>, NoMemory>
    ensures { IfOk result (λ t. t ≡ line_text names.now (Numbered number entry.now)) }
{
    let mut out = Vec::new(alloc);
    if add_entry(&mut out, names, u64::from(number), entry).is_err() {
        return Err(NoMemory);
    }
    let _end = out.pop();
    Ok(Items::from_vec(out))
}

/// The text of the stop line.
fn stop_text(alloc: Global, names: &[Name], stop: Stop) -> Result<Items<u8>, NoMemory>
    ensures { IfOk result (λ t. t ≡ line_text names.now (Stopped stop)) }
{
    let mut out = Vec::new(alloc);
    if add_stop(&mut out, stop).is_err() {
        return Err(NoMemory);
    }
    let _end = out.pop();
    Ok(Items::from_vec(out))
}

/// The text of what is to stand at a place.
fn right_text(
    alloc: Global,
    names: &[Name],
    place: u32,
    right: Right,
) -> Result<Items<u8>, NoMemory>
    ensures { IfOk result (λ t. t ≡ line_text names.now (line_of place right)) }
{
    match right {
        Right::Line(entry) => entry_text(alloc, names, place, &entry),
        Right::Stop(stop) => stop_text(alloc, names, stop),
    }
}

/// The text of the line that stands at a place of the history, or of the stop line behind the last.
fn text_at(alloc: Global, j: &Journal, place: u32) -> Result<Items<u8>, NoMemory>
    requires some { 1 ≤ place }
    requires there { place ≤ length j.now.entries + 1 }
    ensures { IfOk result (λ t. t ≡ line_text j.now.script.names (line_at j.now.entries j.now.stop place)) }
{
    let names = j.script.names.as_slice();
    let entries = j.entries.as_slice();
    let i = place as usize - 1;
    if i < entries.len() {
        entry_text(alloc, names, place, &entries[i])
    } else {
        stop_text(alloc, names, j.stop)
    }
}

/// The line that differs, at a place that is wrong.
pub fn differing(alloc: Global, j: &Journal, wrong: Wrong) -> Result<Differs, NoMemory>
    requires formed { Formed j.now.script }
    requires some { 1 ≤ wrong.place }
    requires there { wrong.place ≤ length j.now.entries + 1 }
    requires few { wrong.place ≤ 1002321 }
    ensures { IfOk result (IsText j.now.script.names (differs_at j.now.script j.now.entries j.now.stop wrong.place (option_map (line_of wrong.place) wrong.right))) }
{
    lines_and_names_are_few();
    thr_syntax::laws::each_line_has_its_words();
    let has = text_at(alloc, j, wrong.place)?;
    let should = match wrong.right {
        None => None,
        Some(right) => Some(right_text(alloc, j.script.names.as_slice(), wrong.place, right)?),
    };
    Ok(Differs {
        line: line_count(&j.script) + 4 + wrong.place,
        has,
        should,
    })
}
