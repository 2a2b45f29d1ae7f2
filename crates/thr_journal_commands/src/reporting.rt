//! The command that reports on a journal.

ghost use Rattle.std.specs.Prelude.{◌≡◌, ◌≢◌, ◌≤◌, ◌⊎◌, ℕ, List, length};
ghost use Rattle.thr_wire.specs.Causes.{Rose};
ghost use Rattle.thr_endings.specs.Endings.{Ends};
ghost use Rattle.thr_journal_commands.specs.Answers.{IsTextOf, ReportAnswers, max_journal};

use std::alloc::Global;
use thr_endings::{Status, give};
use thr_syntax::journal::Journal;
use thr_verify::{report, report_text};
use thr_wire::wire::Sink;

/// Writes the report on a journal.
pub(crate) fn give_report<K: Sink>(alloc: Global, j: &Journal, sink: &mut K) -> Status
    ensures ends { (input : List ℕ) → length input ≤ max_journal → IsTextOf input j.now → Ends (ReportAnswers input) (K.held sink.old) (K.held sink.new) result.0 }
    ensures status { (result.0 ≡ 0) ⊎ ((result.0 ≡ 5) ⊎ (result.0 ≡ 4)) }
    ensures write { result.0 ≡ 4 → Rose (K.faults sink.old) (K.faults sink.new) }
    ensures quiet { result.0 ≢ 4 → K.faults sink.new ≡ K.faults sink.old }
{
    let Ok(counts) = report(alloc, j) else {
        return Status(5);
    };
    match report_text(alloc, &counts, &j.script) {
        Ok(text) => give(sink, 0, text.as_slice()),
        Err(_) => Status(5),
    }
}
