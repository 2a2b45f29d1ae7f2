//! Laws on the lengths of legal histories and their journals.

ghost use Rattle.std.specs.Prelude.{◌≡◌, ◌≤◌, ◌<◌, ◌+◌, ℕ, List, ◌∷◌, ◌++◌, length, nat_le, true};
ghost use Rattle.std.specs.List.{list_all};
ghost use Rattle.thr_values.specs.declared.event.Stop.{Stop};
ghost use Rattle.thr_values.specs.declared.history.Entry.{Entry};
ghost use Rattle.thr_syntax.specs.declared.tree.Script.{Script};
ghost use Rattle.thr_text.specs.Journals.{numbered_line, text};
ghost use Rattle.thr_text.specs.Reading.{Formed};
ghost use Rattle.thr_model.specs.Histories.{Legal};

/// A legal history of a script that keeps the rules has at most 1,001,100 lines: a stop holds at the script's limit, which is at most
/// 1,000,000, and the event that comes to it writes at most 1,100.
pub fn legal_histories_have_few_lines()
    ensures { (s : Script) (n : ℕ) (entries : List Entry) (stop : Stop) → Formed s → Legal s n entries stop → length entries ≤ 1001100 }
{}

/// The text of each of its lines, with a number of at most seven digits and its end, is at most 120 bytes, where there are at most 16
/// processors. So it is with the number that the line has in the journal, which is one more than the lines before it.
pub fn lines_of_legal_histories_are_short()
    ensures with_any_number { (s : Script) (n : ℕ) (entries : List Entry) (stop : Stop) → Formed s → n ≤ 16 → Legal s n entries stop
        → (number : ℕ) → number < 10000000 → list_all (λ (e : Entry). nat_le (length (numbered_line s.names number e)) 120) entries ≡ true }
    ensures with_their_numbers { (s : Script) (n : ℕ) (entries : List Entry) (stop : Stop) → Formed s → n ≤ 16 → Legal s n entries stop
        → (before after : List Entry) (e : Entry) → entries ≡ before ++ e ∷ after → length (numbered_line s.names (length before + 1) e) ≤ 120 }
{}

/// The text of its journal is at most 134,217,728 bytes, its script and its stop line with it.
pub fn journals_of_legal_histories_are_short()
    ensures { (s : Script) (n : ℕ) (entries : List Entry) (stop : Stop) → Formed s → n ≤ 16 → Legal s n entries stop
        → length (text s n entries stop) ≤ 134217728 }
{}
