//! Laws on the lines of a journal that differ from what the machine gives.

ghost use Rattle.std.specs.Prelude.{◌≡◌, ℕ, List, None, Some};
ghost use Rattle.thr_values.specs.declared.event.Stop.{Stop};
ghost use Rattle.thr_values.specs.declared.history.Entry.{Entry};
ghost use Rattle.thr_syntax.specs.declared.tree.Script.{Script};
ghost use Rattle.thr_syntax.specs.declared.journal.Journal.{Journal};
ghost use Rattle.thr_text.specs.Journals.{text};
ghost use Rattle.thr_model.specs.Histories.{Legal};
ghost use Rattle.thr_verdict.specs.Verdicts.{Differs};
ghost use Rattle.thr_verdict.specs.FirstWrong.{wrong_of, first_wrong};

/// A legal history has no place that is wrong, and no line of its journal differs from what the machine gives. So where a line
/// differs the history isn't legal.
pub fn legal_histories_have_no_wrong_line()
    ensures place { (s : Script) (n : ℕ) (entries : List Entry) (stop : Stop) → Legal s n entries stop → wrong_of s n entries stop ≡ None }
    ensures line { (j : Journal) → Legal j.script j.workers j.entries j.stop → first_wrong j ≡ None }
    ensures differs { (j : Journal) (d : Differs) → first_wrong j ≡ Some d → Legal j.script j.workers j.entries j.stop → ⊥ }
{}

/// Where no place is wrong, or no line differs, the journal's text is that of a legal history which stops so.
pub fn right_journals_have_texts_of_legal_histories()
    ensures place { (s : Script) (n : ℕ) (entries : List Entry) (stop : Stop) → wrong_of s n entries stop ≡ None
        → (made : List Entry) × Legal s n made stop × (text s n made stop ≡ text s n entries stop) }
    ensures line { (j : Journal) → first_wrong j ≡ None
        → (made : List Entry) × Legal j.script j.workers made j.stop × (text j.script j.workers made j.stop ≡ text j.script j.workers j.entries j.stop) }
{}
