//! Reads a journal and answers a command on it.

ghost use Rattle.std.specs.Prelude.{◌≡◌, ◌≢◌, ◌≤◌, ◌+◌, ◌⊎◌, ℕ, List, [], Some, codes, length, IfSome};
ghost use Rattle.thr_wire.specs.Bytes.{TookAtMost, TookMoreThan};
ghost use Rattle.thr_wire.specs.Causes.{Rose};
ghost use Rattle.thr_syntax.specs.declared.journal.Journal.{Journal};
ghost use Rattle.thr_verdict.specs.FormedJournals.{FormedJournal};
ghost use Rattle.thr_endings.specs.Endings.{Ends, Writes, one_line};
ghost use Rattle.thr_journal_commands.specs.declared.command.JournalCommand.TheVariants.{Verify};
ghost use Rattle.thr_journal_commands.specs.Answers.{IsGiven, IsTextOf, IsDone, JournalAnswers, max_journal};

use crate::command::JournalCommand;
use crate::refusing::{MAX_JOURNAL, refuse};
use crate::reporting::give_report;
use crate::verifying::give_verdict;
use std::alloc::Global;
use thr_endings::{Status, give};
use thr_journal_reading::{JournalFault, read};
use thr_syntax::journal::Journal;
use thr_wire::fault::WireFault;
use thr_wire::whole::read_all;
use thr_wire::wire::{Sink, Source};

/// Answers a command on a journal.
fn answer_on<K: Sink>(alloc: Global, command: JournalCommand, j: &Journal, sink: &mut K) -> Status
    requires { FormedJournal j.now }
    ensures ends { (input : List ℕ) → length input ≤ max_journal → IsTextOf input j.now → Ends (JournalAnswers command input) (K.held sink.old) (K.held sink.new) result.0 }
    ensures done { result.0 ≢ 4 → IsDone command j.now result.0 }
    ensures write { result.0 ≡ 4 → Rose (K.faults sink.old) (K.faults sink.new) }
    ensures quiet { result.0 ≢ 4 → K.faults sink.new ≡ K.faults sink.old }
    ensures known { (result.0 ≤ 8) × (result.0 ≢ 1) × (result.0 ≢ 3) × (result.0 ≢ 6) × (result.0 ≢ 7) }
    ensures only_verify { result.0 ≡ 8 → command ≡ Verify }
{
    match command {
        JournalCommand::Report => give_report(alloc, j, sink),
        JournalCommand::Verify => give_verdict(alloc, j, sink),
    }
}

/// Answers a command on an input that was read whole.
fn answer_input<K: Sink>(
    alloc: Global,
    command: JournalCommand,
    input: &[u8],
    sink: &mut K,
) -> Status
    requires { length input.now ≤ max_journal }
    ensures ends { Ends (JournalAnswers command input.now) (K.held sink.old) (K.held sink.new) result.0 }
    ensures complete { (j : Journal) → IsGiven input.now j → result.0 ≢ 4 → IsDone command j result.0 }
    ensures write { result.0 ≡ 4 → Rose (K.faults sink.old) (K.faults sink.new) }
    ensures quiet { result.0 ≢ 4 → K.faults sink.new ≡ K.faults sink.old }
    ensures known { (result.0 ≤ 8) × (result.0 ≢ 1) × (result.0 ≢ 3) × (result.0 ≢ 6) × (result.0 ≢ 7) }
    ensures only_verify { result.0 ≡ 8 → command ≡ Verify }
{
    match read(alloc, input) {
        Ok(journal) => answer_on(alloc, command, &journal, sink),
        Err(JournalFault::Refused(place)) => refuse(alloc, place, sink),
        Err(JournalFault::NoMemory) => Status(5),
    }
}

/// Reads a journal and answers a command on it, or refuses what is no journal.
pub fn on_journal<S: Source, K: Sink>(
    alloc: Global,
    command: JournalCommand,
    source: &mut S,
    sink: &mut K,
) -> Status
    ensures at_most { TookAtMost (max_journal + 1) (S.left source.old) (S.left source.new) }
    ensures taken { result.0 ≢ 3 → result.0 ≢ 5 → IfSome (S.left source.old) (λ input. (S.left source.new ≡ Some []) ⊎ TookMoreThan max_journal input (S.left source.new)) }
    ensures only_long { IfSome (S.left source.old) (λ input. TookMoreThan max_journal input (S.left source.new) → Writes (K.held sink.old) (K.held sink.new) result.0 2 (one_line (codes "refused too long"))) }
    ensures answers { IfSome (S.left source.old) (λ input. Ends (JournalAnswers command input) (K.held sink.old) (K.held sink.new) result.0) }
    ensures complete { IfSome (S.left source.old) (λ input. (j : Journal) → IsGiven input j
        → ¬ (Rose (S.faults source.old) (S.faults source.new)) → ¬ (Rose (K.faults sink.old) (K.faults sink.new)) → IsDone command j result.0) }
    ensures read { result.0 ≡ 3 → Rose (S.faults source.old) (S.faults source.new) }
    ensures write { result.0 ≡ 4 → Rose (K.faults sink.old) (K.faults sink.new) }
    ensures quiet_source { result.0 ≢ 3 → S.faults source.new ≡ S.faults source.old }
    ensures quiet_sink { result.0 ≢ 4 → K.faults sink.new ≡ K.faults sink.old }
    ensures known { (result.0 ≤ 8) × (result.0 ≢ 1) × (result.0 ≢ 6) × (result.0 ≢ 7) }
    ensures only_verify { result.0 ≡ 8 → command ≡ Verify }
{
    match read_all(alloc, source, MAX_JOURNAL) {
        Ok(input) => answer_input(alloc, command, input.as_slice(), sink),
        Err(WireFault::ReadFault) => Status(3),
        Err(WireFault::TooLong) => give(sink, 2, b"refused too long\n"),
        Err(WireFault::NoMemory) => Status(5),
    }
}
