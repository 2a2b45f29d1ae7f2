//! Worked histories of cancels.

ghost use Rattle.thr_values.specs.declared.event.Stop.TheVariants as stops;
ghost use Rattle.thr_histories.specs.Runs.{RunsAlone};
ghost use Rattle.thr_examples.specs.Scripts as scripts;

/// A cancel that is caught is raised again and caught outside.
#[tactic(auto, unfolding(crate::specs::Words::history_words))]
pub fn cancel_raised_again()
    ensures { RunsAlone scripts.cancel_raised_again "1 p0 run t1 ; 2 t1 try 1 3 ; 3 t1 try 2 4 ; 4 t1 pthread_cancel 1 = pending ; 5 t1 deliver 1 6 ; 6 t1 catch 2 1 7 ; 7 t1 reraise 2 cancel_e ; 8 t1 catch 1 2 10 ; 9 t1 say 3 ; 10 t1 endcatch 1 ; 11 t1 end 0 ; stop finished" stops.Finished }
{}

/// A wait is cancelled while the canceller holds the mutex.
#[tactic(auto, unfolding(crate::specs::Words::history_words))]
pub fn cancelled_wait()
    ensures { RunsAlone scripts.cancelled_wait "1 p0 run t1 ; 2 t1 pthread_mutex_init m default = ok ; 3 t1 pthread_cond_init c = ok ; 4 t1 pthread_create default waiter 0 = 2 ; 5 t1 pthread_yield = ok ; 6 p0 run t2 ; 7 t2 pthread_mutex_lock m = ok ; 8 t2 try 1 7 ; 9 t2 pthread_cond_wait c m = blocks ; 10 p0 run t1 ; 11 t1 pthread_mutex_lock m = ok ; 12 t1 pthread_cancel 2 = wakes ; 13 t1 pthread_mutex_unlock m = ok ; 14 t2 gift m ; 15 t1 pthread_join 2 = blocks ; 16 p0 run t2 ; 17 t2 deliver 1 8 ; 18 t2 finally 1 1 ; 19 t2 pthread_mutex_unlock m = ok ; 20 t2 endfin 1 ; 21 t2 bottom 1 -1 ; 22 t2 end -1 ; 23 p0 run t1 ; 24 t1 ret = -1 ; 25 t1 say -1 ; 26 t1 end 0 ; stop finished" stops.Finished }
{}

/// A wait that was signalled keeps its reply under a cancel.
#[tactic(auto, unfolding(crate::specs::Words::history_words))]
pub fn signalled_wait()
    ensures { RunsAlone scripts.signalled_wait "1 p0 run t1 ; 2 t1 pthread_mutex_init m default = ok ; 3 t1 pthread_cond_init c = ok ; 4 t1 pthread_create default waiter 0 = 2 ; 5 t1 pthread_yield = ok ; 6 p0 run t2 ; 7 t2 pthread_mutex_lock m = ok ; 8 t2 try 1 7 ; 9 t2 pthread_cond_wait c m = blocks ; 10 p0 run t1 ; 11 t1 pthread_mutex_lock m = ok ; 12 t1 pthread_cond_signal c = ok ; 13 t1 pthread_cancel 2 = pending ; 14 t1 pthread_mutex_unlock m = ok ; 15 t2 gift m ; 16 t1 pthread_join 2 = blocks ; 17 p0 run t2 ; 18 t2 ret = ok ; 19 t2 deliver 1 9 ; 20 t2 finally 1 1 ; 21 t2 pthread_mutex_unlock m = ok ; 22 t2 endfin 1 ; 23 t2 bottom 1 -1 ; 24 t2 end -1 ; 25 p0 run t1 ; 26 t1 ret = -1 ; 27 t1 say -1 ; 28 t1 end 0 ; stop finished" stops.Finished }
{}

/// Cancels of one thread merge, and an ended thread is cancelled and detached.
#[tactic(auto, unfolding(crate::specs::Words::history_words))]
pub fn cancels_merge()
    ensures { RunsAlone scripts.cancels_merge "1 p0 run t1 ; 2 t1 pthread_create default w 0 = 2 ; 3 t1 pthread_cancel 2 = pending ; 4 t1 pthread_cancel 2 = merged ; 5 t1 pthread_join 2 = blocks ; 6 p0 run t2 ; 7 t2 pthread_yield = ok ; 8 p0 run t2 ; 9 t2 try 1 4 ; 10 t2 deliver 1 5 ; 11 t2 catch 1 1 6 ; 12 t2 pthread_testcancel = ok ; 13 t2 endcatch 1 ; 14 t2 end 0 ; 15 p0 run t1 ; 16 t1 ret = 0 ; 17 t1 pthread_cancel 2 = ended ; 18 t1 pthread_detach 2 = ok ; 19 t1 try 1 19 ; 20 t1 pthread_cancel 2 = ESRCH ; 21 t1 raise 1 existence_e ; 22 t1 catch 1 1 21 ; 23 t1 say 0 ; 24 t1 endcatch 1 ; 25 t1 end 0 ; stop finished" stops.Finished }
{}

/// A cancel is delivered before a quiet statement.
#[tactic(auto, unfolding(crate::specs::Words::history_words))]
pub fn asynchronous_delivery()
    ensures { RunsAlone scripts.asynchronous_delivery "1 p0 run t1 ; 2 t1 pthread_setcancel CANCEL_OFF = 1 ; 3 t1 pthread_setasynccancel CANCEL_ON = 0 ; 4 t1 pthread_cancel 1 = pending ; 5 t1 pthread_testcancel = ok ; 6 t1 pthread_setcancel CANCEL_ON = 0 ; 7 t1 deliver 1 9 ; 8 t1 bottom 1 -1 ; 9 t1 end -1 ; stop finished" stops.Finished }
{}
