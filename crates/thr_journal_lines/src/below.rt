//! The lines below `history`.

ghost use Rattle.std.specs.Prelude.{◌≡◌, ◌≤◌, length};
ghost use Rattle.std.specs.Option.{option_map};
ghost use Rattle.thr_journals.specs.Lines.{below};
ghost use Rattle.thr_journal_lines.specs.Known.{entries_in};
ghost use Rattle.thr_journal_lines.specs.Seen.{line_seen};

use crate::names::Known;
use crate::number::is_shortest;
use crate::said::{entry, stop};
use crate::words::Words;
use thr_values::event::Stop;
use thr_values::history::Entry;

/// A line of a history with the text of its number, or the stop line.
#[derive(Clone, Copy)]
pub enum Below<'a> {
    Told(&'a [u8], Entry),
    Stopped(Stop),
}

/// What a line below `history` is, without its LF, where the script has these names, or nothing where it has no form
/// (docs/journal.md, "Faults of a journal").
#[tactic(auto, unfolding(thr_journals::specs::Lines::below))]
pub fn read_below<'a>(line: &'a [u8], known: &[Known]) -> Option<Below<'a>>
    requires { length known.now ≤ 65536 }
    ensures { below (entries_in known.now) line.now ≡ option_map line_seen result }
{
    let mut words = Words::of(line);
    let number = words.next()?;
    if number == b"stop".as_slice() {
        let stop = stop(&mut words)?;
        return Some(Below::Stopped(stop));
    }
    if !is_shortest(number) {
        return None;
    }
    let entry = entry(&mut words, known)?;
    Some(Below::Told(number, entry))
}
