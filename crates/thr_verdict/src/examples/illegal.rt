//! Histories that aren't legal: a line of their journals differs from what the machine gives.

ghost use Rattle.std.specs.Prelude.{◌≡◌, ◌∷◌, [], ◌++◌, pos, take, None, Some};
ghost use Rattle.thr_values.specs.declared.event.Stop.TheVariants as stops;
ghost use Rattle.thr_values.specs.declared.history.What.TheVariants as what;
ghost use Rattle.thr_text.specs.Journals.{text};
ghost use Rattle.thr_model.specs.Histories.{Legal};
ghost use Rattle.thr_verdict.specs.Verdicts.{verdict_text};
ghost use Rattle.thr_verdict.specs.FirstWrong.{first_wrong};
ghost use Rattle.thr_verdict.specs.Samples.{cancelled_wait, cancelled_wait_lines, cancelled_wait_until, clock_to_five, delay_begun, delay_beside_another, delay_journal, dispatch, greater_first, lesser_first, lines_text, m, on_another_processor, seven, seven_ends, seven_lines, seven_said, thread, two_ranks, two_ranks_journal, two_ranks_ready};

/// Of a script that says 7: its thread ends before it says it, or says it without a processor, or the history stops otherwise.
#[tactic(auto, unfolding(crate::specs::Computing::verdict_words))]
pub fn spoiled_histories()
    ensures order { Legal seven 1 (dispatch 1 ∷ seven_ends ∷ seven_said ∷ []) stops.Finished → ⊥ }
    ensures processor { Legal seven 1 (seven_said ∷ seven_said ∷ seven_ends ∷ []) stops.Finished → ⊥ }
    ensures stop { Legal seven 1 seven_lines stops.Limit → ⊥ }
{}

/// Want of memory where a stop holds, and another stop where none does.
#[tactic(auto, unfolding(crate::specs::Computing::verdict_words))]
pub fn stops_that_do_not_hold()
    ensures memory { Legal seven 1 seven_lines stops.Memory → ⊥ }
    ensures early { Legal seven 1 (dispatch 1 ∷ []) stops.Finished → ⊥ }
    ensures late { Legal seven 1 (seven_lines ++ seven_said ∷ []) stops.Memory → ⊥ }
{}

/// A thread of lesser rank takes a processor while one of greater rank is ready.
#[tactic(auto, unfolding(crate::specs::Computing::verdict_words))]
pub fn the_lesser_rank_first()
    ensures journal { text two_ranks 1 (two_ranks_ready ++ lesser_first) stops.Finished ≡ lines_text
        ("dcethr journal 1" ∷ "workers 1" ∷ "script 7" ∷ "dcethr 1" ∷ "routine w a" ∷ "end" ∷ "routine main a"
        ∷ "pthread_create a default w 0" ∷ "pthread_setprio a 17 a" ∷ "end" ∷ "history" ∷ "1 p0 run t1"
        ∷ "2 t1 pthread_create default w 0 = 2" ∷ "3 t1 pthread_setprio 2 17 = 16" ∷ "4 p0 run t1" ∷ "5 t1 end 0"
        ∷ "6 p0 run t2" ∷ "7 t2 end 0" ∷ "stop finished" ∷ []) }
    ensures verdict { verdict_text two_ranks (first_wrong (two_ranks_journal lesser_first))
        ≡ lines_text ("illegal line 15" ∷ "has 4 p0 run t1" ∷ "should 4 p0 run t2" ∷ []) }
    ensures illegal { Legal two_ranks 1 (two_ranks_ready ++ lesser_first) stops.Finished → ⊥ }
    ensures greater { first_wrong (two_ranks_journal greater_first) ≡ None }
{}

/// A mutex is given to a thread that doesn't wait for it: to another than the one that does, to a second one while it has an
/// owner, to its owner, and where nobody owns it.
#[tactic(auto, unfolding(crate::specs::Computing::verdict_words))]
pub fn gifts_to_threads_that_do_not_wait()
    ensures another { Legal cancelled_wait 1 (take 13 cancelled_wait_lines ++ thread 1 (what.Gift (Some m)) ∷ []) stops.Memory → ⊥ }
    ensures second { verdict_text cancelled_wait
        (first_wrong (cancelled_wait_until (take 11 cancelled_wait_lines ++ thread 2 (what.Gift (Some m)) ∷ [])))
        ≡ lines_text ("illegal line 40" ∷ "has 12 t2 gift m" ∷ "should nothing" ∷ []) }
    ensures second_owner { Legal cancelled_wait 1 (take 11 cancelled_wait_lines ++ thread 2 (what.Gift (Some m)) ∷ []) stops.Memory → ⊥ }
    ensures again { verdict_text cancelled_wait
        (first_wrong (cancelled_wait_until (take 11 cancelled_wait_lines ++ thread 1 (what.Gift (Some m)) ∷ [])))
        ≡ lines_text ("illegal line 40" ∷ "has 12 t1 gift m" ∷ "should 12 t1 pthread_cancel 2 = wakes" ∷ []) }
    ensures owner_again { Legal cancelled_wait 1 (take 11 cancelled_wait_lines ++ thread 1 (what.Gift (Some m)) ∷ []) stops.Memory → ⊥ }
    ensures free { Legal cancelled_wait 1 (take 3 cancelled_wait_lines ++ thread 1 (what.Gift (Some m)) ∷ []) stops.Memory → ⊥ }
{}

/// The clock moves while a thread is ready, and a processor that isn't there takes it.
#[tactic(auto, unfolding(crate::specs::Computing::verdict_words))]
pub fn events_that_are_not_legal()
    ensures clock { verdict_text delay_beside_another (first_wrong (delay_journal (clock_to_five ∷ [])))
        ≡ lines_text ("illegal line 15" ∷ "has 4 clock 5" ∷ "should nothing" ∷ []) }
    ensures clock_illegal { Legal delay_beside_another 1 (delay_begun ++ clock_to_five ∷ []) stops.Memory → ⊥ }
    ensures processor { verdict_text delay_beside_another (first_wrong (delay_journal (on_another_processor ∷ [])))
        ≡ lines_text ("illegal line 15" ∷ "has 4 p1 run t2" ∷ "should nothing" ∷ []) }
    ensures processor_illegal { Legal delay_beside_another 1 (delay_begun ++ on_another_processor ∷ []) stops.Memory → ⊥ }
    ensures later { first_wrong (delay_journal (dispatch 2 ∷ thread 2 (what.End (pos 0)) ∷ clock_to_five ∷ [])) ≡ None }
{}
