//! Worked histories of times.

ghost use Rattle.thr_values.specs.declared.event.Stop.TheVariants as stops;
ghost use Rattle.thr_histories.specs.Runs.{RunsAlone};
ghost use Rattle.thr_examples.specs.Scripts as scripts;

/// Two timed waits end at one time.
#[tactic(auto, unfolding(crate::specs::Words::history_words))]
pub fn equal_times()
    ensures { RunsAlone scripts.equal_times "1 p0 run t1 ; 2 t1 pthread_mutex_init m default = ok ; 3 t1 pthread_cond_init c = ok ; 4 t1 pthread_create default w 0 = 2 ; 5 t1 pthread_create default w 0 = 3 ; 6 t1 pthread_delay_np 0 = ok ; 7 t1 end 0 ; 8 p0 run t2 ; 9 t2 pthread_mutex_lock m = ok ; 10 t2 pthread_cond_timedwait c m 20 = blocks ; 11 p0 run t3 ; 12 t3 pthread_mutex_lock m = ok ; 13 t3 pthread_cond_timedwait c m 20 = blocks ; 14 clock 20 ; 15 t2 gift m ; 16 p0 run t2 ; 17 t2 ret = EAGAIN ; 18 t2 say 11 ; 19 t2 pthread_mutex_unlock m = ok ; 20 t3 gift m ; 21 t2 end 0 ; 22 p0 run t3 ; 23 t3 ret = EAGAIN ; 24 t3 say 11 ; 25 t3 pthread_mutex_unlock m = ok ; 26 t3 end 0 ; stop finished" stops.Finished }
{}
