//! The commands that need no workers.

ghost use Rattle.std.specs.Prelude.{◌≡◌, ◌≢◌, ◌≤◌, ◌+◌, ◌⊎◌, IfSome, List, [], ℕ, Some, codes, length};
ghost use Rattle.thr_wire.specs.Bytes.{TookAtMost, TookMoreThan};
ghost use Rattle.thr_wire.specs.Causes.{Rose};
ghost use Rattle.thr_text.specs.Faults.{first_of};
ghost use Rattle.thr_text.specs.Reading.{Reads, faults};
ghost use Rattle.thr_endings.specs.Endings.{Ends, Gives, Writes, one_line};
ghost use Rattle.thr_syntax.specs.declared.journal.Journal.{Journal};
ghost use Rattle.thr_journal_commands.specs.declared.command.JournalCommand.TheVariants as journal;
ghost use Rattle.thr_journal_commands.specs.Answers.{IsDone, IsGiven, ReportAnswers, VerifyAnswers, max_journal};
ghost use Rattle.thr_top.specs.Answers.{NeedsWorkers, AsksMake, IsCheck, IsReport, IsVerify, IsMake, IsPlain, IsScript, ReadsJournal, MakeAnswers, Refuses, CheckAnswers, max_script, usage};

use crate::answer::refusal;
use crate::command::{Word, asks_check, asks_report, asks_verify, made_of};
use crate::make::make;
use std::alloc::Global;
use thr_endings::{Status, give};
use thr_grammar::{parse, print_with_room};
use thr_journal_commands::command::JournalCommand;
use thr_journal_commands::on_journal;
use thr_syntax::tree::Script;
use thr_text::fault::{ParseFault, Place};
use thr_wire::fault::WireFault;
use thr_wire::whole::read_all;
use thr_wire::wire::{Sink, Source};

/// How many bytes a script has at most.
pub(crate) const MAX_SCRIPT: u64 = 1048576;

const USAGE: &[u8] = b"usage: dcethr run W | check | verify | report | make N T | trial N W\n";

/// Writes what a fault is refused with.
pub(crate) fn refuse<K: Sink>(alloc: Global, place: Place, sink: &mut K) -> Status
    ensures refused { (input : List ℕ) → length input ≤ max_script → (pass : ℕ) → first_of (faults input) ≡ Some (pass, place.line, place.number) → Ends (Refuses input) (K.held sink.old) (K.held sink.new) result.0 }
    ensures status { (result.0 ≡ 2) ⊎ ((result.0 ≡ 5) ⊎ (result.0 ≡ 4)) }
    ensures write { result.0 ≡ 4 → Rose (K.faults sink.old) (K.faults sink.new) }
    ensures quiet { result.0 ≢ 4 → K.faults sink.new ≡ K.faults sink.old }
{
    match refusal(alloc, place) {
        Ok(text) => give(sink, 2, text.as_bytes()),
        Err(_) => Status(5),
    }
}

/// Writes the canonical text of a script, which is of about this size.
fn check_script<K: Sink>(alloc: Global, script: &Script, size: usize, sink: &mut K) -> Status
    ensures ends { (input : List ℕ) → length input ≤ max_script → Reads input script.now → Ends (CheckAnswers input) (K.held sink.old) (K.held sink.new) result.0 }
    ensures status { (result.0 ≡ 0) ⊎ ((result.0 ≡ 5) ⊎ (result.0 ≡ 4)) }
    ensures write { result.0 ≡ 4 → Rose (K.faults sink.old) (K.faults sink.new) }
    ensures quiet { result.0 ≢ 4 → K.faults sink.new ≡ K.faults sink.old }
{
    match print_with_room(alloc, script, size) {
        Ok(text) => give(sink, 0, text.as_slice()),
        Err(_) => Status(5),
    }
}

/// Answers `check` on an input that was read whole.
fn check_input<K: Sink>(alloc: Global, input: &[u8], sink: &mut K) -> Status
    requires { length input.now ≤ max_script }
    ensures ends { Ends (CheckAnswers input.now) (K.held sink.old) (K.held sink.new) result.0 }
    ensures complete { IsScript input.now → (result.0 ≡ 0) ⊎ ((result.0 ≡ 5) ⊎ (result.0 ≡ 4)) }
    ensures write { result.0 ≡ 4 → Rose (K.faults sink.old) (K.faults sink.new) }
    ensures quiet { result.0 ≢ 4 → K.faults sink.new ≡ K.faults sink.old }
    ensures known { (result.0 ≤ 5) × (result.0 ≢ 1) × (result.0 ≢ 3) }
{
    match parse(alloc, input) {
        Ok(script) => check_script(alloc, &script, input.len(), sink),
        Err(ParseFault::Refused(place)) => refuse(alloc, place, sink),
        Err(ParseFault::NoMemory) => Status(5),
    }
}

/// Does what `check` says.
fn check_on<S: Source, K: Sink>(alloc: Global, source: &mut S, sink: &mut K) -> Status
    ensures at_most { TookAtMost (max_script + 1) (S.left source.old) (S.left source.new) }
    ensures taken { result.0 ≢ 3 → result.0 ≢ 5 → IfSome (S.left source.old) (λ input. (S.left source.new ≡ Some []) ⊎ TookMoreThan max_script input (S.left source.new)) }
    ensures only_long { IfSome (S.left source.old) (λ input. TookMoreThan max_script input (S.left source.new) → Writes (K.held sink.old) (K.held sink.new) result.0 2 (one_line (codes "refused too long"))) }
    ensures check { IfSome (S.left source.old) (λ input. Ends (CheckAnswers input) (K.held sink.old) (K.held sink.new) result.0) }
    ensures complete { IfSome (S.left source.old) (λ input.
        IsScript input → ¬ (Rose (S.faults source.old) (S.faults source.new)) → ¬ (Rose (K.faults sink.old) (K.faults sink.new))
        → (result.0 ≡ 0) ⊎ (result.0 ≡ 5)) }
    ensures read { result.0 ≡ 3 → Rose (S.faults source.old) (S.faults source.new) }
    ensures write { result.0 ≡ 4 → Rose (K.faults sink.old) (K.faults sink.new) }
    ensures quiet_source { result.0 ≢ 3 → S.faults source.new ≡ S.faults source.old }
    ensures quiet_sink { result.0 ≢ 4 → K.faults sink.new ≡ K.faults sink.old }
    ensures known { (result.0 ≤ 5) × (result.0 ≢ 1) }
{
    match read_all(alloc, source, MAX_SCRIPT) {
        Ok(input) => check_input(alloc, input.as_slice(), sink),
        Err(WireFault::ReadFault) => Status(3),
        Err(WireFault::TooLong) => give(sink, 2, b"refused too long\n"),
        Err(WireFault::NoMemory) => Status(5),
    }
}

/// Does what words say that need no workers (docs/theorems.md, "The top call"). It waits for nobody and returns.
pub fn plain_top<S: Source, K: Sink>(
    alloc: Global,
    words: &[Word],
    source: &mut S,
    sink: &mut K,
) -> Status
    requires { ¬ (NeedsWorkers words.now) }
    // Words of no form get the usage line, and where neither a script nor a journal is asked for nothing is read.
    ensures usage { ¬ (IsPlain words.now) → Writes (K.held sink.old) (K.held sink.new) result.0 1 usage }
    ensures only_usage { result.0 ≡ 1 → ¬ (IsPlain words.now) }
    ensures unread { ¬ (IsCheck words.now) → ¬ (ReadsJournal words.now) → source.new ≡ source.old }

    // `check` takes all that the source has left, or more than the limit of it and nothing behind the byte that shows so. Where it
    // takes more than the limit, it refuses that for its length.
    ensures at_most { IsCheck words.now → TookAtMost (max_script + 1) (S.left source.old) (S.left source.new) }
    ensures taken { IsCheck words.now → result.0 ≢ 3 → result.0 ≢ 5 → IfSome (S.left source.old) (λ input. (S.left source.new ≡ Some []) ⊎ TookMoreThan max_script input (S.left source.new)) }
    ensures only_long { IsCheck words.now → IfSome (S.left source.old) (λ input. TookMoreThan max_script input (S.left source.new) → Writes (K.held sink.old) (K.held sink.new) result.0 2 (one_line (codes "refused too long"))) }

    // So do `verify` and `report`, with the limit of a journal.
    ensures journal_at_most { ReadsJournal words.now → TookAtMost (max_journal + 1) (S.left source.old) (S.left source.new) }
    ensures journal_taken { ReadsJournal words.now → result.0 ≢ 3 → result.0 ≢ 5 → IfSome (S.left source.old) (λ input. (S.left source.new ≡ Some []) ⊎ TookMoreThan max_journal input (S.left source.new)) }
    ensures journal_only_long { ReadsJournal words.now → IfSome (S.left source.old) (λ input. TookMoreThan max_journal input (S.left source.new) → Writes (K.held sink.old) (K.held sink.new) result.0 2 (one_line (codes "refused too long"))) }

    // `check` writes the canonical text of the script, or what stands in its place. Where no device has a fault, the text of
    // a script gives 0, or 5 for want of memory.
    ensures check { IsCheck words.now → IfSome (S.left source.old) (λ input. Ends (CheckAnswers input) (K.held sink.old) (K.held sink.new) result.0) }
    ensures complete { IsCheck words.now → IfSome (S.left source.old) (λ input.
        IsScript input → ¬ (Rose (S.faults source.old) (S.faults source.new)) → ¬ (Rose (K.faults sink.old) (K.faults sink.new))
        → (result.0 ≡ 0) ⊎ (result.0 ≡ 5)) }

    // `verify` writes the verdict on a journal, and `report` its counts, or what stands in their place. A history that is called
    // legal meets the laws. Where no device has a fault, the text of a journal gives 0, or 5 for want of memory, and to `verify` 8
    // exactly where its history isn't legal.
    ensures verify { IsVerify words.now → IfSome (S.left source.old) (λ input. Ends (VerifyAnswers input) (K.held sink.old) (K.held sink.new) result.0) }
    ensures verify_complete { IsVerify words.now → IfSome (S.left source.old) (λ input. (j : Journal) →
        IsGiven input j → ¬ (Rose (S.faults source.old) (S.faults source.new)) → ¬ (Rose (K.faults sink.old) (K.faults sink.new))
        → IsDone journal.Verify j result.0) }
    ensures report { IsReport words.now → IfSome (S.left source.old) (λ input. Ends (ReportAnswers input) (K.held sink.old) (K.held sink.new) result.0) }
    ensures report_complete { IsReport words.now → IfSome (S.left source.old) (λ input. (j : Journal) →
        IsGiven input j → ¬ (Rose (S.faults source.old) (S.faults source.new)) → ¬ (Rose (K.faults sink.old) (K.faults sink.new))
        → (result.0 ≡ 0) ⊎ (result.0 ≡ 5)) }

    // `make` writes the canonical text of the script that is made, or nothing for want of memory.
    ensures make { (number : ℕ) → (workers : ℕ) → IsMake words.now number workers → Gives (MakeAnswers number workers) (K.held sink.old) (K.held sink.new) result.0 }
    ensures make_complete { AsksMake words.now → ¬ (Rose (K.faults sink.old) (K.faults sink.new)) → (result.0 ≡ 0) ⊎ (result.0 ≡ 5) }

    // Faults of the devices are their own.
    ensures read { result.0 ≡ 3 → Rose (S.faults source.old) (S.faults source.new) }
    ensures write { result.0 ≡ 4 → Rose (K.faults sink.old) (K.faults sink.new) }
    ensures quiet_source { result.0 ≢ 3 → S.faults source.new ≡ S.faults source.old }
    ensures quiet_sink { result.0 ≢ 4 → K.faults sink.new ≡ K.faults sink.old }
    ensures known { (result.0 ≤ 8) × (result.0 ≢ 6) × (result.0 ≢ 7) }
    ensures only_verify { result.0 ≡ 8 → IsVerify words.now }
{
    if let Some((number, workers)) = made_of(words) {
        return make(alloc, number, workers, sink);
    }
    if asks_check(words) {
        return check_on(alloc, source, sink);
    }
    if asks_verify(words) {
        return on_journal(alloc, JournalCommand::Verify, source, sink);
    }
    if asks_report(words) {
        return on_journal(alloc, JournalCommand::Report, source, sink);
    }
    give(sink, 1, USAGE)
}
