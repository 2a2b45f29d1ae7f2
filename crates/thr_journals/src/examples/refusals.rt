//! Journals that are read and texts that are refused.

ghost use Rattle.std.specs.Prelude.{◌≡◌, ◌∷◌, [], ◌++◌, map, take, drop, codes, pos, None, Some};
ghost use Rattle.thr_values.specs.declared.history.What.TheVariants as what;
ghost use Rattle.thr_values.specs.declared.event.Stop.TheVariants as stops;
ghost use Rattle.thr_journals.specs.Faults.{parts_of, workers_in, names_of};
ghost use Rattle.thr_journals.specs.Reading.{line_at, script_in, history_in, history_lines};
ghost use Rattle.thr_journals.specs.Samples.{dispatch, lines_text, refusal, seven, seven_with, said_by_one, tid};

/// A journal, one without lines, and ones whose histories aren't legal.
#[tactic(auto, unfolding(crate::specs::Computing::journal_words))]
pub fn journals_without_a_fault()
    ensures whole { refusal seven "" ≡ None }
    ensures no_line { refusal (take 8 seven ++ "stop memory" ∷ []) "" ≡ None }
    ensures other_lines { refusal (seven_with 8 ("1 t0 end 4" ∷ "2 t9 clock" ∷ [])) "" ≡ Some (10, 4) }
    ensures not_legal { refusal (seven_with 9 ("2 t9 pause" ∷ [])) "" ≡ None }
{}

/// What a journal is read as.
#[tactic(auto, unfolding(crate::specs::Computing::journal_words))]
pub fn what_is_read()
    ensures workers { workers_in (line_at (parts_of (lines_text seven)) 1) ≡ Some 1 }
    ensures script { script_in (parts_of (lines_text seven)) ≡ lines_text ("dcethr 1" ∷ "routine main a" ∷ "say 7" ∷ "end" ∷ []) }
    ensures history { history_in (names_of (script_in (parts_of (lines_text seven)))) (history_lines (parts_of (lines_text seven)))
        ≡ Some (dispatch (tid 1) ∷ said_by_one (what.Say (pos 7)) ∷ said_by_one (what.End (pos 0)) ∷ [], stops.Finished) }
{}

/// J1 and J2: the first three lines, and how many lines the script has.
#[tactic(auto, unfolding(crate::specs::Computing::journal_words))]
pub fn titles()
    ensures nothing { refusal [] "" ≡ Some (1, 1) }
    ensures no_end { refusal [] "dcethr journal 1" ≡ Some (1, 1) }
    ensures other_title { refusal (seven_with 0 ("dcethr journal 2" ∷ [])) "" ≡ Some (1, 1) }
    ensures alone { refusal (take 1 seven) "workers 1" ≡ Some (2, 1) }
    ensures no_worker { refusal (seven_with 1 ("workers 0" ∷ [])) "" ≡ Some (2, 1) }
    ensures workers { refusal (seven_with 1 ("workers 17" ∷ [])) "" ≡ Some (2, 1) }
    ensures leading { refusal (seven_with 1 ("workers 01" ∷ [])) "" ≡ Some (2, 1) }
    ensures sixteen { refusal (seven_with 1 ("workers 16" ∷ [])) "" ≡ None }
    ensures no_script { refusal (take 2 seven) "" ≡ Some (3, 2) }
    ensures none { refusal (seven_with 2 ("script 0" ∷ [])) "" ≡ Some (3, 2) }
    ensures fewer { refusal (seven_with 2 ("script 3" ∷ [])) "" ≡ Some (3, 2) }
    ensures more { refusal (seven_with 2 ("script 5" ∷ [])) "" ≡ Some (3, 2) }
    ensures many { refusal (seven_with 2 ("script 400" ∷ [])) "" ≡ Some (3, 2) }
    ensures cut { refusal (take 7 seven) "history" ≡ Some (3, 2) }
{}

/// J3: the script.
#[tactic(auto, unfolding(crate::specs::Computing::journal_words))]
pub fn scripts()
    ensures name { refusal (seven_with 5 ("say x" ∷ [])) "" ≡ Some (6, 3) }
    ensures open_block { refusal (seven_with 6 ("say 8" ∷ [])) "" ≡ Some (8, 3) }
    ensures spaced { refusal (seven_with 5 ("say  7" ∷ [])) "" ≡ Some (4, 3) }
    ensures number { refusal (seven_with 5 ("say 07" ∷ [])) "" ≡ Some (4, 3) }
    ensures comment { refusal (seven_with 6 ("end # x" ∷ [])) "" ≡ Some (4, 3) }
    ensures blank { refusal (seven_with 2 ("script 5" ∷ "" ∷ [])) "" ≡ Some (4, 3) }
{}

/// J4 to J7: the history.
#[tactic(auto, unfolding(crate::specs::Computing::journal_words))]
pub fn histories()
    ensures cut { refusal (take 11 seven) "stop finishe" ≡ Some (12, 4) }
    ensures no_end { refusal (take 11 seven) "stop finished" ≡ Some (12, 4) }
    ensures no_stop { refusal (take 11 seven) "" ≡ Some (12, 7) }
    ensures no_history { refusal (take 8 seven) "" ≡ Some (9, 7) }
    ensures form { refusal (seven_with 9 ("2 t1 say -0" ∷ [])) "" ≡ Some (10, 4) }
    ensures number { refusal (seven_with 9 ("3 t1 say 7" ∷ [])) "" ≡ Some (10, 5) }
    ensures from_one { refusal (seven_with 8 ("0 p0 run t1" ∷ [])) "" ≡ Some (9, 5) }
    ensures both { refusal (seven_with 9 ("3 t1 say -0" ∷ [])) "" ≡ Some (10, 4) }
    ensures first { refusal (seven_with 9 ("3 t1 say 7" ∷ "4 t1 say -0" ∷ [])) "" ≡ Some (10, 5) }
    ensures doubled { refusal (seven_with 9 ("2 t1 say 7" ∷ "2 t1 say 7" ∷ [])) "" ≡ Some (11, 5) }
    ensures byte { refusal seven "x" ≡ Some (13, 6) }
    ensures line { refusal (seven_with 11 ("stop finished" ∷ "stop finished" ∷ [])) "" ≡ Some (13, 6) }
    ensures earlier { refusal (seven_with 9 ("stop limit" ∷ [])) "" ≡ Some (11, 6) }
    ensures carriage { refusal (seven_with 9 ("2 t1 say 7\r" ∷ [])) "" ≡ Some (10, 4) }
{}
