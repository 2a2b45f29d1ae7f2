//! Worked histories by events of one's choice.

ghost use Rattle.std.specs.Prelude.{pos, ◌∷◌, []};
ghost use Rattle.thr_values.specs.declared.event.Stop.TheVariants as stops;
ghost use Rattle.thr_histories.specs.Runs.{RunsBy, SaysBy};
ghost use Rattle.thr_histories.specs.Events.{buffer_events, dispatch_alone};
ghost use Rattle.thr_examples.specs.Scripts as scripts;

/// A bounded buffer with two producers and two consumers, on four processors: what was produced is consumed.
#[tactic(auto, unfolding(crate::specs::Words::history_words))]
pub fn bounded_buffer()
    ensures { SaysBy scripts.buffer 4 buffer_events ((1, pos 30) ∷ []) stops.Finished }
{}

/// A history that stops for want of memory, where no other stop holds.
#[tactic(auto, unfolding(crate::specs::Words::history_words))]
pub fn want_of_memory()
    ensures { RunsBy scripts.saying_seven 1 dispatch_alone "1 p0 run t1 ; stop memory" stops.Memory }
{}
