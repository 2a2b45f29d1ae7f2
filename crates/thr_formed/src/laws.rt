//! Laws on the journals of legal histories.

ghost use Rattle.std.specs.Prelude.{◌≤◌, ℕ, List};
ghost use Rattle.thr_values.specs.declared.event.Stop.{Stop};
ghost use Rattle.thr_values.specs.declared.history.Entry.{Entry};
ghost use Rattle.thr_syntax.specs.declared.tree.Script.{Script};
ghost use Rattle.thr_text.specs.Reading.{Formed};
ghost use Rattle.thr_model.specs.Histories.{Legal};
ghost use Rattle.thr_verdict.specs.FormedJournals.{FormedJournal};

/// The journal of a legal history of a script that keeps the rules, on 1 to 16 processors, has the form of a journal: each name in its lines
/// is of the kind that its place asks, and each number is of its type.
pub fn journals_of_legal_histories_are_formed()
    ensures { (s : Script) (n : ℕ) (entries : List Entry) (stop : Stop) → Formed s → 1 ≤ n → n ≤ 16 → Legal s n entries stop
        → FormedJournal (record { workers = n; script = s; entries = entries; stop = stop }) }
{}
