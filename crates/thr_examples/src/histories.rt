//! Histories of worked scripts as their numbered lines and their stop.

ghost use Rattle.std.specs.Prelude.{◌≡◌, pos, ◌∷◌, []};
ghost use Rattle.thr_values.specs.declared.event.Stop.TheVariants.{Finished, Deadlock, Limit, Memory};
ghost use Rattle.thr_values.specs.declared.history.What.TheVariants.{Say, End};
ghost use Rattle.thr_examples.specs.OneLine.{text_in_lines};
ghost use Rattle.thr_examples.specs.Pasted.{script_of, history_text};
ghost use Rattle.thr_examples.specs.Entries.{run, by, thread};
ghost use Rattle.thr_examples.specs.Histories.{cancelled_wait, cancelled_wait_lines};
ghost use Rattle.thr_examples.specs.Scripts as scripts;

/// A number that is said, with its whole text.
#[tactic(auto, unfolding(crate::specs::Words::example_words))]
pub fn seven_in_lines()
    ensures { history_text (script_of scripts.saying_seven) (run 0 1 ∷ by 1 (Say (pos 7)) ∷ by 1 (End (pos 0)) ∷ []) Finished ≡ text_in_lines "1 p0 run t1 ; 2 t1 say 7 ; 3 t1 end 0 ; stop finished" }
{}

/// A cancelled wait.
#[tactic(auto, unfolding(crate::specs::Words::example_words))]
pub fn cancelled_wait_in_lines()
    ensures { history_text (script_of scripts.cancelled_wait) cancelled_wait_lines Finished ≡ text_in_lines cancelled_wait }
{}

/// The other stops.
#[tactic(auto, unfolding(crate::specs::Words::example_words))]
pub fn stops_in_lines()
    ensures limit { history_text (script_of scripts.limit_reached) [] Limit ≡ text_in_lines "stop limit" }
    ensures memory { history_text (script_of scripts.saying_seven) (run 0 1 ∷ []) Memory ≡ text_in_lines "1 p0 run t1 ; stop memory" }
    ensures deadlock { history_text (script_of scripts.deadlock_of_two) [] (Deadlock 2 (thread 1)) ≡ text_in_lines "stop deadlock 2 t1" }
{}
