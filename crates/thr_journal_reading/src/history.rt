//! The history in a journal.

ghost use Rattle.std.specs.Prelude.{◌≡◌, ◌∷◌, ◌+◌, ◌<◌, ◌≤◌, ◌^◌, [], length, Some, IfOk, IfErr, OnOk};
ghost use Rattle.thr_journals.specs.Lines.{below};
ghost use Rattle.thr_journals.specs.Faults.{parts_of, end_faults, tail_fault, history_faults};
ghost use Rattle.thr_journals.specs.Reading.{history_in};
ghost use Rattle.thr_journals.specs.Refusals.{IsFirst};
ghost use Rattle.thr_journal_lines.specs.Known.{entries_in};
ghost use Rattle.thr_journal_reading.specs.Judging.{IsLine, line_faults};

use crate::cut::{next_line, refused};
use sqlite_items::Items;
use std::alloc::Global;
use thr_journal_lines::{Below, Known, has_number, read_below};
use thr_journals::fault::JournalFault;
use thr_values::event::Stop;
use thr_values::history::Entry;

/// A line that has its form and, where it is no stop line, the next number.
#[derive(Clone, Copy)]
pub(crate) enum Judged {
    Told(Entry),
    Stopped(Stop),
}

/// The line at this place of the text, or J4 or J5 of it.
fn judge_line(known: &[Known], line: &[u8], at: u32, number: u64) -> Result<Judged, JournalFault>
    requires { length known.now ≤ 65536 }
    ensures line { IfOk result (λ j. IsLine (entries_in known.now) number line.now j) }
    ensures fault { IfErr result (λ f. IsFirst f (line_faults at number (below (entries_in known.now) line.now))) }
{
    match read_below(line, known) {
        None => Err(refused(at, 4)),
        Some(Below::Stopped(stop)) => Ok(Judged::Stopped(stop)),
        Some(Below::Told(text, entry)) => {
            if has_number(text, number) {
                Ok(Judged::Told(entry))
            } else {
                Err(refused(at, 5))
            }
        }
    }
}

/// J6: whether nothing stands behind the stop line.
fn judge_end(rest: &[u8], at: u32) -> Result<(), JournalFault>
    ensures ok { OnOk result (end_faults at (parts_of rest.now) ≡ []) }
    ensures fault { IfErr result (λ f. IsFirst f (end_faults at (parts_of rest.now))) }
{
    match next_line(rest) {
        Some(_) => Err(refused(at, 6)),
        None => if rest.is_empty() {
            Ok(())
        } else {
            Err(refused(at, 6))
        },
    }
}

/// J7 behind the last LF, or J4 of what has none.
fn cut_short(tail: &[u8], at: u32) -> JournalFault
    ensures { IsFirst result (tail_fault tail.now at ∷ []) }
{
    if tail.is_empty() {
        refused(at, 7)
    } else {
        refused(at, 4)
    }
}

/// The lines of a history from this line of the text on, and its stop. Lines are read up to the first that has a fault.
pub(crate) fn read_history(
    alloc: Global,
    known: &[Known],
    first: u32,
    text: &[u8],
) -> Result<(Items<Entry>, Stop), JournalFault>
    requires names { length known.now ≤ 65536 }
    requires room { first + length text.now < 2 ^ 32 }
    ensures faultless { IfOk result (λ h. history_faults (entries_in known.now) first 1 (parts_of text.now) ≡ []) }
    ensures history { IfOk result (λ h. history_in (entries_in known.now) (parts_of text.now) ≡ Some (h.0, h.1)) }
    ensures fault { IfErr result (λ f. IsFirst f (history_faults (entries_in known.now) first 1 (parts_of text.now))) }
{
    let mut entries = Items::new(alloc);
    let mut rest = text;
    let mut at = first;
    let mut number: u64 = 1;
    'lines: while let Some((line, behind)) = next_line(rest) {
        match judge_line(known, line, at, number)? {
            Judged::Told(entry) => entries.push(entry)?,
            Judged::Stopped(stop) => {
                judge_end(behind, at + 1)?;
                return Ok((entries, stop));
            }
        }
        rest = behind;
        at += 1;
        number += 1;
    }
    Err(cut_short(rest, at))
}
