//! Verdicts on journals of a script that says 7.

ghost use Rattle.std.specs.Prelude.{◌≡◌, ◌-◌, ◌∷◌, [], ◌++◌, codes, pos, slice_get, take, None, Some};
ghost use Rattle.std.specs.Str.Lines.{lines};
ghost use Rattle.thr_values.specs.declared.event.Stop.TheVariants as stops;
ghost use Rattle.thr_text.specs.Journals.{text};
ghost use Rattle.thr_values.specs.declared.history.Who.TheVariants as who;
ghost use Rattle.thr_values.specs.declared.history.What.TheVariants as what;
ghost use Rattle.thr_verdict.specs.Verdicts.{journal_line, verdict_text};
ghost use Rattle.thr_verdict.specs.FirstWrong.{first_wrong};
ghost use Rattle.thr_verdict.specs.Samples.{cancelled_wait, cancelled_wait_lines, dispatch, lines_text, seven, seven_ends, seven_journal, seven_lines, seven_said, thread, m};

/// The journal as it is, which is legal.
#[tactic(auto, unfolding(crate::specs::Computing::verdict_words))]
pub fn legal()
    ensures journal { text seven 1 seven_lines stops.Finished ≡ lines_text
        ("dcethr journal 1" ∷ "workers 1" ∷ "script 4" ∷ "dcethr 1" ∷ "routine main a" ∷ "say 7" ∷ "end" ∷ "history"
        ∷ "1 p0 run t1" ∷ "2 t1 say 7" ∷ "3 t1 end 0" ∷ "stop finished" ∷ []) }
    ensures verdict { verdict_text seven (first_wrong (seven_journal 1 seven_lines stops.Finished)) ≡ lines_text ("legal" ∷ []) }
{}

/// The journal with lines that stand in another order.
#[tactic(auto, unfolding(crate::specs::Computing::verdict_words))]
pub fn ends_before_it_says()
    ensures journal { text seven 1 (dispatch 1 ∷ seven_ends ∷ seven_said ∷ []) stops.Finished ≡ lines_text
        ("dcethr journal 1" ∷ "workers 1" ∷ "script 4" ∷ "dcethr 1" ∷ "routine main a" ∷ "say 7" ∷ "end" ∷ "history"
        ∷ "1 p0 run t1" ∷ "2 t1 end 0" ∷ "3 t1 say 7" ∷ "stop finished" ∷ []) }
    ensures verdict { verdict_text seven
        (first_wrong (seven_journal 1 (dispatch 1 ∷ seven_ends ∷ seven_said ∷ []) stops.Finished))
        ≡ lines_text ("illegal line 10" ∷ "has 2 t1 end 0" ∷ "should 2 t1 say 7" ∷ []) }
{}

/// The journal with an event that isn't legal where it begins.
#[tactic(auto, unfolding(crate::specs::Computing::verdict_words))]
pub fn says_without_a_processor()
    ensures journal { text seven 1 (seven_said ∷ seven_said ∷ seven_ends ∷ []) stops.Finished ≡ lines_text
        ("dcethr journal 1" ∷ "workers 1" ∷ "script 4" ∷ "dcethr 1" ∷ "routine main a" ∷ "say 7" ∷ "end" ∷ "history"
        ∷ "1 t1 say 7" ∷ "2 t1 say 7" ∷ "3 t1 end 0" ∷ "stop finished" ∷ []) }
    ensures verdict { verdict_text seven
        (first_wrong (seven_journal 1 (seven_said ∷ seven_said ∷ seven_ends ∷ []) stops.Finished))
        ≡ lines_text ("illegal line 9" ∷ "has 1 t1 say 7" ∷ "should nothing" ∷ []) }
{}

/// The journal with another stop.
#[tactic(auto, unfolding(crate::specs::Computing::verdict_words))]
pub fn stops_otherwise()
    ensures verdict { verdict_text seven (first_wrong (seven_journal 1 seven_lines stops.Limit))
        ≡ lines_text ("illegal line 12" ∷ "has stop limit" ∷ "should stop finished" ∷ []) }
    ensures early { verdict_text seven
        (first_wrong (seven_journal 1 (dispatch 1 ∷ []) stops.Finished))
        ≡ lines_text ("illegal line 10" ∷ "has stop finished" ∷ "should nothing" ∷ []) }
    ensures no_stop_holds { verdict_text seven
        (first_wrong (seven_journal 1 (dispatch 1 ∷ []) stops.Limit))
        ≡ lines_text ("illegal line 10" ∷ "has stop limit" ∷ "should nothing" ∷ []) }
    ensures want_of_memory { first_wrong (seven_journal 1 (dispatch 1 ∷ []) stops.Memory) ≡ None }
    ensures want_of_memory_at_first { first_wrong (seven_journal 1 [] stops.Memory) ≡ None }
    ensures memory_where_a_stop_holds { verdict_text seven
        (first_wrong (seven_journal 1 seven_lines stops.Memory))
        ≡ lines_text ("illegal line 12" ∷ "has stop memory" ∷ "should stop finished" ∷ []) }
    ensures no_such_processor { verdict_text seven
        (first_wrong (seven_journal 1 (record { who = who.Proc 1; what = what.Run (record { 0 = 1 }) } ∷ []) stops.Memory))
        ≡ lines_text ("illegal line 9" ∷ "has 1 p1 run t1" ∷ "should nothing" ∷ []) }
    ensures no_time_to_wait_for { verdict_text seven
        (first_wrong (seven_journal 1 (record { who = who.Clock; what = what.Clock (pos 5) } ∷ []) stops.Memory))
        ≡ lines_text ("illegal line 9" ∷ "has 1 clock 5" ∷ "should nothing" ∷ []) }
    ensures no_line { verdict_text seven (first_wrong (seven_journal 1 [] stops.Finished))
        ≡ lines_text ("illegal line 9" ∷ "has stop finished" ∷ "should nothing" ∷ []) }
    ensures no_stop { verdict_text seven
        (first_wrong (seven_journal 1 (dispatch 1 ∷ seven_said ∷ seven_ends ∷ seven_said ∷ []) stops.Memory))
        ≡ lines_text ("illegal line 12" ∷ "has 4 t1 say 7" ∷ "should stop finished" ∷ []) }
{}

/// A longer script and names in lines.
#[tactic(auto, unfolding(crate::specs::Computing::verdict_words))]
pub fn another_script()
    ensures legal { first_wrong (record { workers = 1; script = cancelled_wait; entries = cancelled_wait_lines; stop = stops.Finished }) ≡ None }
    ensures within_an_event { verdict_text cancelled_wait
        (first_wrong (record { workers = 1; script = cancelled_wait; entries = take 13 cancelled_wait_lines; stop = stops.Deadlock 2 (record { 0 = 1 }) }))
        ≡ lines_text ("illegal line 42" ∷ "has stop deadlock 2 t1" ∷ "should 14 t2 gift m" ∷ []) }
    ensures given_to_another { verdict_text cancelled_wait
        (first_wrong (record { workers = 1; script = cancelled_wait; entries = take 13 cancelled_wait_lines ++ thread 1 (what.Gift (Some m)) ∷ []; stop = stops.Memory }))
        ≡ lines_text ("illegal line 42" ∷ "has 14 t1 gift m" ∷ "should 14 t2 gift m" ∷ []) }
{}

/// The line at a place of the history, found in the whole text of the journal.
#[tactic(auto, unfolding(crate::specs::Computing::verdict_words))]
pub fn places_in_the_text()
    ensures first { slice_get (lines (text seven 1 seven_lines stops.Finished)) (journal_line seven 1 - 1)
        ≡ Some (codes "1 p0 run t1") }
    ensures stop { slice_get (lines (text seven 1 seven_lines stops.Finished)) (journal_line seven 4 - 1)
        ≡ Some (codes "stop finished") }
    ensures longer { slice_get (lines (text cancelled_wait 1 cancelled_wait_lines stops.Finished)) (journal_line cancelled_wait 12 - 1)
        ≡ Some (codes "12 t1 pthread_cancel 2 = wakes") }
{}
