//! Laws on the texts that `run` writes.

ghost use Rattle.std.specs.Prelude.{◌≡◌, ◌≤◌, List, [], ◌∷◌, ℕ, length, codes, None};
ghost use Rattle.thr_syntax.specs.declared.journal.Journal.{Journal};
ghost use Rattle.thr_syntax.specs.Canon.{line};
ghost use Rattle.thr_text.specs.Journals.{text};
ghost use Rattle.thr_verdict.specs.FormedJournals.{FormedJournal};
ghost use Rattle.thr_verdict.specs.FirstWrong.{first_wrong};
ghost use Rattle.thr_verdict.specs.Verdicts.{verdict_text};
ghost use Rattle.thr_journals.specs.declared.fault.JournalFault.{JournalFault};
ghost use Rattle.thr_journals.specs.declared.fault.JournalFault.TheVariants as fault;
ghost use Rattle.thr_journals.specs.Faults.{faults};
ghost use Rattle.thr_journals.specs.Reading.{ReadsJournal};
ghost use Rattle.thr_journals.specs.Refusals.{IsFirst};
ghost use Rattle.thr_written.specs.Written.{IsWritten};

/// The text of the journal of a legal history is one that `verify` takes, where the script keeps the rules and there are 1 to 16 processors: it
/// isn't too long, it has no fault, and it is read as that journal, which has its form. Want of memory alone can refuse it.
pub fn what_run_writes_is_read_again()
    ensures short { (bytes : List ℕ) (j : Journal) → IsWritten bytes j → length bytes ≤ 134217728 }
    ensures faultless { (bytes : List ℕ) (j : Journal) → IsWritten bytes j → faults bytes ≡ [] }
    ensures formed { (bytes : List ℕ) (j : Journal) → IsWritten bytes j → FormedJournal j }
    ensures read { (bytes : List ℕ) (j : Journal) → IsWritten bytes j → ReadsJournal bytes j }
    ensures refused { (bytes : List ℕ) (j : Journal) (f : JournalFault) → IsWritten bytes j → IsFirst f (faults bytes) → f ≡ fault.NoMemory }
{}

/// And it is called legal: a journal of that form with that text is that journal, none of its lines differs from what the machine gives, and its
/// verdict is `legal`.
pub fn what_run_writes_is_called_legal()
    ensures only { (bytes : List ℕ) (j k : Journal) → IsWritten bytes j → FormedJournal k → bytes ≡ text k.script k.workers k.entries k.stop → k ≡ j }
    ensures right { (bytes : List ℕ) (j k : Journal) → IsWritten bytes j → FormedJournal k → bytes ≡ text k.script k.workers k.entries k.stop
        → first_wrong k ≡ None }
    ensures verdict { (bytes : List ℕ) (j k : Journal) → IsWritten bytes j → FormedJournal k → bytes ≡ text k.script k.workers k.entries k.stop
        → verdict_text k.script (first_wrong k) ≡ line (codes "legal" ∷ []) }
{}
