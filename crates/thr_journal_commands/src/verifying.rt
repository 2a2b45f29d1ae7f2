//! The command that judges a journal.

ghost use Rattle.std.specs.Prelude.{◌≡◌, ◌≢◌, ◌≤◌, ◌⊎◌, ℕ, List, length};
ghost use Rattle.thr_wire.specs.Causes.{Rose};
ghost use Rattle.thr_verdict.specs.FormedJournals.{FormedJournal};
ghost use Rattle.thr_endings.specs.Endings.{Ends};
ghost use Rattle.thr_journal_commands.specs.Answers.{IsLegal, IsTextOf, VerifyAnswers, max_journal, status_of};

use std::alloc::Global;
use thr_endings::{Status, give};
use thr_lawful::laws::legal_histories_meet_the_laws;
use thr_syntax::journal::Journal;
use thr_verify::{Verdict, verdict_text, verify};
use thr_wire::wire::Sink;

/// The status that goes with a verdict.
fn status_of(verdict: &Verdict) -> u8
    ensures { result ≡ status_of verdict.now }
{
    match verdict {
        Verdict::Legal => 0,
        Verdict::Illegal(_) => 8,
    }
}

/// Writes the verdict on a journal. A legal history meets the laws.
pub(crate) fn give_verdict<K: Sink>(alloc: Global, j: &Journal, sink: &mut K) -> Status
    requires { FormedJournal j.now }
    ensures ends { (input : List ℕ) → length input ≤ max_journal → IsTextOf input j.now → Ends (VerifyAnswers input) (K.held sink.old) (K.held sink.new) result.0 }
    ensures legal { IsLegal j.now → (result.0 ≡ 0) ⊎ ((result.0 ≡ 5) ⊎ (result.0 ≡ 4)) }
    ensures illegal { ¬ (IsLegal j.now) → (result.0 ≡ 8) ⊎ ((result.0 ≡ 5) ⊎ (result.0 ≡ 4)) }
    ensures status { (result.0 ≡ 0) ⊎ ((result.0 ≡ 8) ⊎ ((result.0 ≡ 5) ⊎ (result.0 ≡ 4))) }
    ensures write { result.0 ≡ 4 → Rose (K.faults sink.old) (K.faults sink.new) }
    ensures quiet { result.0 ≢ 4 → K.faults sink.new ≡ K.faults sink.old }
{
    legal_histories_meet_the_laws();
    let Ok(verdict) = verify(alloc, j) else {
        return Status(5);
    };
    match verdict_text(alloc, &verdict) {
        Ok(text) => give(sink, status_of(&verdict), text.as_slice()),
        Err(_) => Status(5),
    }
}
