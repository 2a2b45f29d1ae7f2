//! Worked histories of shared variables that calls write.

ghost use Rattle.thr_values.specs.declared.event.Stop.TheVariants as stops;
ghost use Rattle.thr_histories.specs.Runs.{RunsAlone};
ghost use Rattle.thr_histories_turns.specs.MachineScripts as scripts;

/// Shared variables have their declared values at first; a read stores the item and then 1, so 1 is left where both variables are
/// one.
#[tactic(auto, unfolding(crate::specs::Words::history_words))]
pub fn shared_by_calls()
    ensures { RunsAlone scripts.shared_by_calls "1 p0 run t1 ; 2 t1 say 7 ; 3 t1 say -2 ; 4 t1 write p 4 = ok ; 5 t1 read p = 4 ; 6 t1 say 1 ; 7 t1 write p 5 = ok ; 8 t1 read p = 5 ; 9 t1 say 51 ; 10 t1 end 0 ; stop finished" stops.Finished }
{}

/// A read that waited stores when it returns, and not when its item comes.
#[tactic(auto, unfolding(crate::specs::Words::history_words))]
pub fn shared_at_return()
    ensures { RunsAlone scripts.shared_at_return "1 p0 run t1 ; 2 t1 pthread_create default w 0 = 2 ; 3 t1 read p = blocks ; 4 p0 run t2 ; 5 t2 write p 9 = ok ; 6 t2 say 3 ; 7 t2 end 0 ; 8 p0 run t1 ; 9 t1 ret = 9 ; 10 t1 say 1 ; 11 t1 end 0 ; stop finished" stops.Finished }
{}
