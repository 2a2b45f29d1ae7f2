//! Refuses what is no journal.

ghost use Rattle.std.specs.Prelude.{◌≡◌, ◌≢◌, ◌≤◌, ◌⊎◌, ℕ, List, Some, length, string_bytes, IfOk};
ghost use Rattle.thr_wire.specs.Causes.{Rose};
ghost use Rattle.thr_text.specs.Faults.{first_of};
ghost use Rattle.thr_journals.specs.Faults.{faults};
ghost use Rattle.thr_endings.specs.Endings.{Ends};
ghost use Rattle.thr_journal_commands.specs.Answers.{RefusesJournal, max_journal, refusal};

use std::alloc::{AllocError, Global};
use thr_endings::{Status, give};
use thr_journal_reading::JournalPlace;
use thr_wire::wire::Sink;

/// How many bytes a journal has at most.
pub(crate) const MAX_JOURNAL: u64 = 134217728;

/// What is written for a fault.
fn refusal(alloc: Global, place: JournalPlace) -> Result<String, AllocError>
    ensures { IfOk result (λ s. string_bytes s ≡ refusal place.number place.line) }
{
    let JournalPlace { number, line } = place;
    let mut text = format!(in alloc; "refused J{number} line {line}")?;
    text.push_str("\n")?;
    Ok(text)
}

/// Writes what a fault is refused with.
pub(crate) fn refuse<K: Sink>(alloc: Global, place: JournalPlace, sink: &mut K) -> Status
    ensures refused { (input : List ℕ) → length input ≤ max_journal → first_of (faults input) ≡ Some (place.line, place.number) → Ends (RefusesJournal input) (K.held sink.old) (K.held sink.new) result.0 }
    ensures status { (result.0 ≡ 2) ⊎ ((result.0 ≡ 5) ⊎ (result.0 ≡ 4)) }
    ensures write { result.0 ≡ 4 → Rose (K.faults sink.old) (K.faults sink.new) }
    ensures quiet { result.0 ≢ 4 → K.faults sink.new ≡ K.faults sink.old }
{
    match refusal(alloc, place) {
        Ok(text) => give(sink, 2, text.as_bytes()),
        Err(_) => Status(5),
    }
}
