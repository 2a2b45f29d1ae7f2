//! Laws on lines that have their form, and on the first line that differs.

ghost use Rattle.std.specs.Prelude.{◌≡◌, ℕ, List, true, None, Some};
ghost use Rattle.std.specs.List.{list_all};
ghost use Rattle.thr_values.specs.declared.event.Event.{Event};
ghost use Rattle.thr_values.specs.declared.event.Stop.{Stop};
ghost use Rattle.thr_values.specs.declared.history.Entry.{Entry};
ghost use Rattle.thr_syntax.specs.declared.tree.Script.{Script};
ghost use Rattle.thr_syntax.specs.declared.journal.Journal.{Journal};
ghost use Rattle.thr_text.specs.Journals.{numbered_line};
ghost use Rattle.thr_text.specs.Reading.{Formed};
ghost use Rattle.thr_model.specs.Events.{made_by};
ghost use Rattle.thr_model.specs.Histories.{Legal};
ghost use Rattle.thr_model.specs.States.{State};
ghost use Rattle.thr_model.specs.Turns.{Made};
ghost use Rattle.thr_verdict.specs.FormedJournals.{is_formed_line};
ghost use Rattle.thr_verdict.specs.FirstWrong.{is_same_line, wrong_of, FirstWrongIsExact};
ghost use Rattle.thr_exactness.specs.Arguments.{has_arguments_in_front};

/// Two lines that have their form, of one script that keeps the rules, are equal where their texts with one number are. A line
/// of the machine that is the same as a line that has its form is that line.
pub fn lines_are_told_by_their_texts()
    ensures formed { (s : Script) → Formed s → (k : ℕ) (a b : Entry) → is_formed_line s a ≡ true → is_formed_line s b ≡ true
        → numbered_line s.names k a ≡ numbered_line s.names k b → a ≡ b }
    ensures made { (s : Script) → Formed s → (m e : Entry) → has_arguments_in_front m.what ≡ true → is_formed_line s e ≡ true
        → is_same_line s.names m e ≡ true → m ≡ e }
{}

/// In the lines of each event the arguments of calls stand in front of the places that have none.
pub fn arguments_of_calls_stand_in_front()
    ensures { (s : Script) (n : ℕ) (st : State) (e : Event) (made : Made) → made_by s n st e ≡ Some made
        → list_all (λ l. has_arguments_in_front l.what) made.lines ≡ true }
{}

/// A journal that has its form has a line that differs exactly where its history isn't legal.
pub fn a_line_differs_exactly_where_the_history_is_not_legal()
    ensures place { (s : Script) → Formed s → (n : ℕ) (entries : List Entry) (stop : Stop) → list_all (is_formed_line s) entries ≡ true
        → wrong_of s n entries stop ≡ None → Legal s n entries stop }
    ensures journal { (j : Journal) → FirstWrongIsExact j }
{}
