//! Worked histories of once blocks and keys.

ghost use Rattle.thr_values.specs.declared.event.Stop.TheVariants as stops;
ghost use Rattle.thr_histories.specs.Runs.{RunsAlone};
ghost use Rattle.thr_examples.specs.Scripts as scripts;

/// A once routine is unwound while two threads wait.
#[tactic(auto, unfolding(crate::specs::Words::history_words))]
pub fn once_undone()
    ensures { RunsAlone scripts.once_undone "1 p0 run t1 ; 2 t1 pthread_create default w 1 = 2 ; 3 t1 pthread_yield = ok ; 4 p0 run t2 ; 5 t2 pthread_once o init = ok ; 6 t2 once 1 o ; 7 t2 pthread_delay_np 10 = blocks ; 8 p0 run t1 ; 9 t1 pthread_create default w 2 = 3 ; 10 t1 pthread_create default w 3 = 4 ; 11 t1 pthread_yield = ok ; 12 p0 run t3 ; 13 t3 pthread_once o init = blocks ; 14 p0 run t4 ; 15 t4 pthread_once o init = blocks ; 16 p0 run t1 ; 17 t1 pthread_setprio 4 20 = 16 ; 18 t1 pthread_cancel 2 = wakes ; 19 t1 end 0 ; 20 p0 run t2 ; 21 t2 deliver 1 4 ; 22 t2 undone 1 1 ; 23 p0 run t4 ; 24 t4 ret = ok ; 25 t4 once 1 o ; 26 t4 pthread_delay_np 10 = blocks ; 27 p0 run t2 ; 28 t2 bottom 1 -1 ; 29 t2 end -1 ; 30 clock 10 ; 31 p0 run t4 ; 32 t4 ret = ok ; 33 t4 done 1 ; 34 t4 say 3 ; 35 t4 end 0 ; 36 p0 run t3 ; 37 t3 ret = ok ; 38 t3 say 2 ; 39 t3 end 0 ; stop finished" stops.Finished }
{}

/// A destructor that raises is lost, and the next one is called.
#[tactic(auto, unfolding(crate::specs::Words::history_words))]
pub fn destructor_raises()
    ensures { RunsAlone scripts.destructor_raises "1 p0 run t1 ; 2 t1 pthread_keycreate k bad = ok ; 3 t1 pthread_keycreate j good = ok ; 4 t1 pthread_setspecific k 4 = ok ; 5 t1 pthread_setspecific j 5 = ok ; 6 t1 destroy 1 k 4 ; 7 t1 raise 1 e ; 8 t1 lost 1 1 ; 9 t1 destroy 2 j 5 ; 10 t1 say 5 ; 11 t1 enddes 2 ; 12 t1 end 9 ; stop finished" stops.Finished }
{}
