//! The top call.

ghost use Rattle.std.specs.Prelude.{◌≡◌, ◌≢◌, ◌≤◌, ◌+◌, ◌⊎◌, IfSome, List, [], ℕ, None, Some, codes, length};
ghost use Rattle.thr_wire.specs.Bytes.{TookAtMost, TookMoreThan};
ghost use Rattle.thr_wire.specs.Causes.{Rose};
ghost use Rattle.thr_text.specs.Reading.{Formed, Reads};
ghost use Rattle.thr_endings.specs.Endings.{Ends, Gives, Writes, one_line};
ghost use Rattle.thr_syntax.specs.declared.journal.Journal.{Journal};
ghost use Rattle.thr_journal_commands.specs.declared.command.JournalCommand.TheVariants as journal;
ghost use Rattle.thr_journal_commands.specs.Answers.{IsDone, IsGiven, ReportAnswers, VerifyAnswers, max_journal};
ghost use Rattle.thr_top.specs.Answers.{status_of, IsRun, AsksRun, IsMake, AsksMake, IsTrial, AsksTrial, NeedsWorkers, IsCheck, IsReport, IsVerify, IsCommand, ReadsJournal, ReadsScript, IsScript, IsRunStatus, RunAnswers, CheckAnswers, MakeAnswers, TrialAnswers, max_script, usage};

use crate::answer::status_of;
use crate::check::{MAX_SCRIPT, plain_top, refuse};
use crate::command::{Word, tried_of, workers_of};
use crate::run::history_of;
use crate::trial::trial;
use std::alloc::Global;
use std::sync::Wait;
use std::thread::Threads;
use thr_endings::{Status, give};
use thr_grammar::parse;
use thr_journal::print;
use thr_syntax::tree::Script;
use thr_text::fault::ParseFault;
use thr_wire::fault::WireFault;
use thr_wire::whole::read_all;
use thr_wire::wire::{Sink, Source};
use thr_workers::gate::Gate;

/// Runs a script on so many workers and writes its journal.
fn run_script<K: Sink, R: Threads + Wait + Sync, G: Gate + Sync>(
    rt: &R,
    alloc: Global,
    script: Script,
    workers: u32,
    sink: &mut K,
    gate: &G,
) -> Status
    requires formed { Formed script }
    requires some { 1 ≤ workers }
    requires few { workers ≤ 16 }
    ensures ends { (input : List ℕ) → length input ≤ max_script → Reads input script → Ends (RunAnswers workers input) (K.held sink.old) (K.held sink.new) result.0 }
    ensures status { IsRunStatus result.0 ⊎ (result.0 ≡ 4) }
    ensures write { result.0 ≡ 4 → Rose (K.faults sink.old) (K.faults sink.new) }
    ensures quiet { result.0 ≢ 4 → K.faults sink.new ≡ K.faults sink.old }
{
    let Ok(journal) = history_of(rt, alloc, script, workers, gate) else {
        return Status(5);
    };
    let Ok(text) = print(alloc, &journal) else {
        return Status(5);
    };
    give(sink, status_of(journal.stop), text.as_slice())
}

/// Answers `run` with so many workers on an input that was read whole.
fn run_input<K: Sink, R: Threads + Wait + Sync, G: Gate + Sync>(
    rt: &R,
    alloc: Global,
    input: &[u8],
    workers: u32,
    sink: &mut K,
    gate: &G,
) -> Status
    requires short { length input.now ≤ max_script }
    requires some { 1 ≤ workers }
    requires few { workers ≤ 16 }
    ensures ends { Ends (RunAnswers workers input.now) (K.held sink.old) (K.held sink.new) result.0 }
    ensures complete { IsScript input.now → IsRunStatus result.0 ⊎ (result.0 ≡ 4) }
    ensures write { result.0 ≡ 4 → Rose (K.faults sink.old) (K.faults sink.new) }
    ensures quiet { result.0 ≢ 4 → K.faults sink.new ≡ K.faults sink.old }
    ensures known { (result.0 ≤ 7) × (result.0 ≢ 1) × (result.0 ≢ 3) }
{
    match parse(alloc, input) {
        Ok(script) => run_script(rt, alloc, script, workers, sink, gate),
        Err(ParseFault::Refused(place)) => refuse(alloc, place, sink),
        Err(ParseFault::NoMemory) => Status(5),
    }
}

/// Does what `run` says with so many workers.
fn run_on<S: Source, K: Sink, R: Threads + Wait + Sync, G: Gate + Sync>(
    rt: &R,
    alloc: Global,
    workers: u32,
    source: &mut S,
    sink: &mut K,
    gate: &G,
) -> Status
    requires some { 1 ≤ workers }
    requires few { workers ≤ 16 }
    ensures at_most { TookAtMost (max_script + 1) (S.left source.old) (S.left source.new) }
    ensures taken { result.0 ≢ 3 → result.0 ≢ 5 → IfSome (S.left source.old) (λ input. (S.left source.new ≡ Some []) ⊎ TookMoreThan max_script input (S.left source.new)) }
    ensures only_long { IfSome (S.left source.old) (λ input. TookMoreThan max_script input (S.left source.new) → Writes (K.held sink.old) (K.held sink.new) result.0 2 (one_line (codes "refused too long"))) }
    ensures run { IfSome (S.left source.old) (λ input. Ends (RunAnswers workers input) (K.held sink.old) (K.held sink.new) result.0) }
    ensures complete { IfSome (S.left source.old) (λ input.
        IsScript input → ¬ (Rose (S.faults source.old) (S.faults source.new)) → ¬ (Rose (K.faults sink.old) (K.faults sink.new))
        → IsRunStatus result.0) }
    ensures read { result.0 ≡ 3 → Rose (S.faults source.old) (S.faults source.new) }
    ensures write { result.0 ≡ 4 → Rose (K.faults sink.old) (K.faults sink.new) }
    ensures quiet_source { result.0 ≢ 3 → S.faults source.new ≡ S.faults source.old }
    ensures quiet_sink { result.0 ≢ 4 → K.faults sink.new ≡ K.faults sink.old }
    ensures known { (result.0 ≤ 7) × (result.0 ≢ 1) }
{
    match read_all(alloc, source, MAX_SCRIPT) {
        Ok(input) => run_input(rt, alloc, input.as_slice(), workers, sink, gate),
        Err(WireFault::ReadFault) => Status(3),
        Err(WireFault::TooLong) => give(sink, 2, b"refused too long\n"),
        Err(WireFault::NoMemory) => Status(5),
    }
}

/// Does what the words say: reads the source, writes the sink and answers the status that the program ends with
/// (docs/theorems.md, "The top call"). `run` and `trial` go by workers, which pass the gate without a lock; no clause says how many threads they
/// are. It is called by `main`. It may never return, since workers wait for one another, and so may the gate.
pub fn top<S: Source, K: Sink, R: Threads + Wait + Sync, G: Gate + Sync>(
    rt: &R,
    alloc: Global,
    words: &[Word],
    source: &mut S,
    sink: &mut K,
    gate: &G,
) -> Status
    // Words of no form get the usage line, and where neither a script nor a journal is asked for nothing is read.
    ensures usage { ¬ (IsCommand words.now) → Writes (K.held sink.old) (K.held sink.new) result.0 1 usage }
    ensures only_usage { result.0 ≡ 1 → ¬ (IsCommand words.now) }
    ensures unread { ¬ (ReadsScript words.now) → ¬ (ReadsJournal words.now) → source.new ≡ source.old }

    // `run` and `check` take all that the source has left, or more than the limit of it and nothing behind the byte that shows so.
    // Where they take more than the limit, they refuse that for its length.
    ensures at_most { ReadsScript words.now → TookAtMost (max_script + 1) (S.left source.old) (S.left source.new) }
    ensures taken { ReadsScript words.now → result.0 ≢ 3 → result.0 ≢ 5 → IfSome (S.left source.old) (λ input. (S.left source.new ≡ Some []) ⊎ TookMoreThan max_script input (S.left source.new)) }
    ensures only_long { ReadsScript words.now → IfSome (S.left source.old) (λ input. TookMoreThan max_script input (S.left source.new) → Writes (K.held sink.old) (K.held sink.new) result.0 2 (one_line (codes "refused too long"))) }

    // So do `verify` and `report`, with the limit of a journal.
    ensures journal_at_most { ReadsJournal words.now → TookAtMost (max_journal + 1) (S.left source.old) (S.left source.new) }
    ensures journal_taken { ReadsJournal words.now → result.0 ≢ 3 → result.0 ≢ 5 → IfSome (S.left source.old) (λ input. (S.left source.new ≡ Some []) ⊎ TookMoreThan max_journal input (S.left source.new)) }
    ensures journal_only_long { ReadsJournal words.now → IfSome (S.left source.old) (λ input. TookMoreThan max_journal input (S.left source.new) → Writes (K.held sink.old) (K.held sink.new) result.0 2 (one_line (codes "refused too long"))) }

    // `run` writes the journal of a legal history of the script by so many workers, or what stands in its place. In that history each
    // unwinding takes its route through the open handlers until it is caught or replaced, no mutex has two owners, cancels are
    // delivered when they must and may be, and each call that waits is answered once. With one worker it is the only legal
    // history of the script, but for those that want of memory cuts short.
    ensures run { (n : ℕ) → IsRun words.now n → IfSome (S.left source.old) (λ input. Ends (RunAnswers n input) (K.held sink.old) (K.held sink.new) result.0) }

    // `check` writes the canonical text of the script, or what stands in its place.
    ensures check { IsCheck words.now → IfSome (S.left source.old) (λ input. Ends (CheckAnswers input) (K.held sink.old) (K.held sink.new) result.0) }

    // `verify` writes the verdict on a journal, and `report` its counts, or what stands in their place. A history that is called
    // legal meets the laws.
    ensures verify { IsVerify words.now → IfSome (S.left source.old) (λ input. Ends (VerifyAnswers input) (K.held sink.old) (K.held sink.new) result.0) }
    ensures report { IsReport words.now → IfSome (S.left source.old) (λ input. Ends (ReportAnswers input) (K.held sink.old) (K.held sink.new) result.0) }

    // `make` writes the canonical text of the script that is made, or nothing for want of memory.
    ensures make { (number : ℕ) → (workers : ℕ) → IsMake words.now number workers → Gives (MakeAnswers number workers) (K.held sink.old) (K.held sink.new) result.0 }

    // `trial` writes the shared variables of the last state of a legal history of the script that is made, or nothing for want of
    // memory.
    ensures trial { (number : ℕ) → (workers : ℕ) → IsTrial words.now number workers → Gives (TrialAnswers number workers) (K.held sink.old) (K.held sink.new) result.0 }

    // Where no device has a fault, the text of a script gives 0, or 5 for want of memory, and so do that of a journal, and `make`.
    // To `run`, and of a trial, 6 comes where nothing can go on, and 7 where the lines come to the limit; to `verify` 8 comes
    // exactly where the journal's history isn't legal.
    ensures run_complete { AsksRun words.now → IfSome (S.left source.old) (λ input.
        IsScript input → ¬ (Rose (S.faults source.old) (S.faults source.new)) → ¬ (Rose (K.faults sink.old) (K.faults sink.new))
        → IsRunStatus result.0) }
    ensures check_complete { IsCheck words.now → IfSome (S.left source.old) (λ input.
        IsScript input → ¬ (Rose (S.faults source.old) (S.faults source.new)) → ¬ (Rose (K.faults sink.old) (K.faults sink.new))
        → (result.0 ≡ 0) ⊎ (result.0 ≡ 5)) }
    ensures verify_complete { IsVerify words.now → IfSome (S.left source.old) (λ input. (j : Journal) →
        IsGiven input j → ¬ (Rose (S.faults source.old) (S.faults source.new)) → ¬ (Rose (K.faults sink.old) (K.faults sink.new))
        → IsDone journal.Verify j result.0) }
    ensures report_complete { IsReport words.now → IfSome (S.left source.old) (λ input. (j : Journal) →
        IsGiven input j → ¬ (Rose (S.faults source.old) (S.faults source.new)) → ¬ (Rose (K.faults sink.old) (K.faults sink.new))
        → (result.0 ≡ 0) ⊎ (result.0 ≡ 5)) }
    ensures trial_complete { AsksTrial words.now → ¬ (Rose (K.faults sink.old) (K.faults sink.new)) → IsRunStatus result.0 }
    ensures make_complete { AsksMake words.now → ¬ (Rose (K.faults sink.old) (K.faults sink.new)) → (result.0 ≡ 0) ⊎ (result.0 ≡ 5) }

    // Faults of the devices are their own.
    ensures read { result.0 ≡ 3 → Rose (S.faults source.old) (S.faults source.new) }
    ensures write { result.0 ≡ 4 → Rose (K.faults sink.old) (K.faults sink.new) }
    ensures quiet_source { result.0 ≢ 3 → S.faults source.new ≡ S.faults source.old }
    ensures quiet_sink { result.0 ≢ 4 → K.faults sink.new ≡ K.faults sink.old }
    ensures known { result.0 ≤ 8 }
    ensures only_verify { result.0 ≡ 8 → IsVerify words.now }
    ensures only_run { (result.0 ≡ 6) ⊎ (result.0 ≡ 7) → NeedsWorkers words.now }
{
    match workers_of(words) {
        Some(workers) => run_on(rt, alloc, workers, source, sink, gate),
        None => match tried_of(words) {
            Some((number, workers)) => trial(rt, alloc, number, workers, sink, gate),
            None => plain_top(alloc, words, source, sink),
        },
    }
}
