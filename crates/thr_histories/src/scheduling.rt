//! Worked histories of threads, ranks and limits.

ghost use Rattle.thr_values.specs.declared.event.Stop.TheVariants as stops;
ghost use Rattle.thr_histories.specs.Runs.{RunsAlone};
ghost use Rattle.thr_examples.specs.Scripts as scripts;

/// A loop without an end comes to the limit.
#[tactic(auto, unfolding(crate::specs::Words::history_words))]
pub fn limit_reached()
    ensures { RunsAlone scripts.limit_reached "1 p0 run t1 ; 2 t1 pause ; 3 t1 pause ; stop limit" stops.Limit }
{}

/// A thread of greater rank takes the processor of its maker.
#[tactic(auto, unfolding(crate::specs::Words::history_words))]
pub fn ranks()
    ensures { RunsAlone scripts.ranks "1 p0 run t1 ; 2 t1 pthread_attr_create f = ok ; 3 t1 pthread_attr_setinheritsched f PTHREAD_DEFAULT_SCHED = ok ; 4 t1 pthread_attr_setsched f SCHED_FIFO = ok ; 5 t1 pthread_create f w 5 = 2 ; 6 p0 run t2 ; 7 t2 say 5 ; 8 t2 end 0 ; 9 p0 run t1 ; 10 t1 say 6 ; 11 t1 end 0 ; stop finished" stops.Finished }
{}

/// A thread is joined before its end and once more after it.
#[tactic(auto, unfolding(crate::specs::Words::history_words))]
pub fn joined_twice()
    ensures { RunsAlone scripts.joined_twice "1 p0 run t1 ; 2 t1 pthread_create default w 4 = 2 ; 3 t1 pthread_join 2 = blocks ; 4 p0 run t2 ; 5 t2 end 5 ; 6 p0 run t1 ; 7 t1 ret = 5 ; 8 t1 pthread_join 2 = 5 ; 9 t1 say 5 ; 10 t1 end 0 ; stop finished" stops.Finished }
{}
