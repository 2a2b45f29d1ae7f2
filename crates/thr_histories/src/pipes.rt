//! Worked histories of pipes.

ghost use Rattle.thr_values.specs.declared.event.Stop.TheVariants as stops;
ghost use Rattle.thr_histories.specs.Runs.{RunsAlone};
ghost use Rattle.thr_examples.specs.Scripts as scripts;

/// A reader is cancelled while it waits, another gets the item, and a closed pipe is written to.
#[tactic(auto, unfolding(crate::specs::Words::history_words))]
pub fn cancelled_reader()
    ensures { RunsAlone scripts.cancelled_reader "1 p0 run t1 ; 2 t1 pthread_create default r 0 = 2 ; 3 t1 pthread_create default r 0 = 3 ; 4 t1 pthread_yield = ok ; 5 p0 run t2 ; 6 t2 read p = blocks ; 7 p0 run t3 ; 8 t3 read p = blocks ; 9 p0 run t1 ; 10 t1 pthread_cancel 2 = wakes ; 11 t1 write p 7 = ok ; 12 t1 pthread_join 3 = blocks ; 13 p0 run t2 ; 14 t2 deliver 1 6 ; 15 t2 bottom 1 -1 ; 16 t2 end -1 ; 17 p0 run t3 ; 18 t3 ret = 7 ; 19 t3 say 7 ; 20 t3 end 0 ; 21 p0 run t1 ; 22 t1 ret = 0 ; 23 t1 close p = ok ; 24 t1 write p 8 = EPIPE ; 25 t1 raise 1 pipe_e ; 26 t1 bottom 1 -2 ; 27 t1 end -2 ; stop finished" stops.Finished }
{}
