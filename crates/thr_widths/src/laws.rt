//! Laws on the widths of lines and journals.

ghost use Rattle.std.specs.Prelude.{◌≤◌, ◌<◌, ℕ, length, IsTrue};
ghost use Rattle.std.specs.List.{list_all};
ghost use Rattle.thr_values.specs.declared.history.Entry.{Entry};
ghost use Rattle.thr_values.specs.declared.number.NameId.{NameId};
ghost use Rattle.thr_syntax.specs.declared.journal.Journal.{Journal};
ghost use Rattle.thr_syntax.specs.declared.tree.Script.{Script};
ghost use Rattle.thr_text.specs.Reading.{Formed};
ghost use Rattle.thr_text.specs.Journals.{name_word, numbered_line, text};
ghost use Rattle.thr_verdict.specs.FormedJournals.{FormedJournal, is_formed_line};
ghost use Rattle.thr_widths.specs.Replies.{has_its_reply};

/// Each name of a script that keeps the rules has at most 24 bytes, be it built in or declared.
pub fn names_are_short()
    ensures { (s : Script) → Formed s → (name : NameId) → length (name_word s.names name) ≤ 24 }
{}

/// The text of a line that has its form, with its number of at most seven digits and its end, is at most 137 bytes, and at most
/// 129 where a call replies a number only if it has a variable for it.
pub fn lines_are_short()
    ensures formed { (s : Script) (n : ℕ) (e : Entry) → Formed s → n < 10000000 → IsTrue (is_formed_line s e)
        → length (numbered_line s.names n e) ≤ 137 }
    ensures replies { (s : Script) (n : ℕ) (e : Entry) → Formed s → n < 10000000 → IsTrue (is_formed_line s e) → IsTrue (has_its_reply e)
        → length (numbered_line s.names n e) ≤ 129 }
{}

/// The text of a journal that has its form, of at most 1,001,160 lines, is at most 134,217,728 bytes, where
/// a call replies a number only if it has a variable for it.
pub fn journals_are_short()
    ensures { (j : Journal) → FormedJournal j → length j.entries ≤ 1001160 → IsTrue (list_all has_its_reply j.entries)
        → length (text j.script j.workers j.entries j.stop) ≤ 134217728 }
{}
