//! Lines below `history`.

ghost use Rattle.std.specs.Prelude.{◌≡◌, ◌<◌, ◌^◌, ◌∷◌, ℕ, List, true, Some};
ghost use Rattle.std.specs.List.{join_with_byte};
ghost use Rattle.std.specs.Fmt.{decimal};
ghost use Rattle.thr_values.specs.declared.history.Entry.{Entry};
ghost use Rattle.thr_values.specs.declared.event.Stop.{Stop};
ghost use Rattle.thr_syntax.specs.declared.tree.Script.{Script};
ghost use Rattle.thr_text.specs.Reading.{Formed, own_lines};
ghost use Rattle.thr_text.specs.Tables.{entries_of};
ghost use Rattle.thr_text.specs.Journals.{who_word, what_words, stop_words};
ghost use Rattle.thr_verdict.specs.FormedJournals.{is_formed_line, is_formed_stop};
ghost use Rattle.thr_journals.specs.Numbers.{is_shortest};
ghost use Rattle.thr_journals.specs.Lines.{Told, Stopped, below};

/// A text is read as a line of a history just where the line has its form and the text is what is printed of it, with a number
/// in its shortest form (docs/journal.md, "Formed journals").
pub fn lines_are_read_as_printed()
    ensures taken { (s : Script) → Formed s → (text number : List ℕ) (e : Entry) → below (entries_of (own_lines s)) text ≡ Some (Told number e)
        → (text ≡ join_with_byte 32 (number ∷ who_word e.who ∷ what_words s.names e.what)) × (is_shortest number ≡ true) × (is_formed_line s e ≡ true) }
    ensures again { (s : Script) → Formed s → (n : ℕ) → n < 2 ^ 64 → (e : Entry) → is_formed_line s e ≡ true
        → below (entries_of (own_lines s)) (join_with_byte 32 (decimal n ∷ who_word e.who ∷ what_words s.names e.what)) ≡ Some (Told (decimal n) e) }
{}

/// So are stop lines.
pub fn stop_lines_are_read_as_printed()
    ensures taken { (s : Script) → Formed s → (text : List ℕ) (stop : Stop) → below (entries_of (own_lines s)) text ≡ Some (Stopped stop)
        → (text ≡ join_with_byte 32 (stop_words stop)) × (is_formed_stop stop ≡ true) }
    ensures again { (s : Script) → (stop : Stop) → is_formed_stop stop ≡ true → below (entries_of (own_lines s)) (join_with_byte 32 (stop_words stop)) ≡ Some (Stopped stop) }
{}
