//! Worked histories of waiters of two ranks, of which the lesser comes first.

ghost use Rattle.thr_values.specs.declared.event.Stop.TheVariants as stops;
ghost use Rattle.thr_histories.specs.Runs.{RunsAlone};
ghost use Rattle.thr_histories_waits.specs.WaitScripts as scripts;

/// An unlock gives the mutex to the waiter of greater rank, though it came later.
#[tactic(auto, unfolding(crate::specs::Words::history_words))]
pub fn mutex_by_rank()
    ensures { RunsAlone scripts.mutex_by_rank "1 p0 run t1 ; 2 t1 pthread_mutex_init m default = ok ; 3 t1 pthread_mutex_lock m = ok ; 4 t1 pthread_create default w 0 = 2 ; 5 t1 pthread_yield = ok ; 6 p0 run t2 ; 7 t2 pthread_mutex_lock m = blocks ; 8 p0 run t1 ; 9 t1 pthread_attr_create f = ok ; 10 t1 pthread_attr_setinheritsched f PTHREAD_DEFAULT_SCHED = ok ; 11 t1 pthread_attr_setprio f 20 = ok ; 12 t1 pthread_create f w 0 = 3 ; 13 p0 run t3 ; 14 t3 pthread_mutex_lock m = blocks ; 15 p0 run t1 ; 16 t1 pthread_mutex_unlock m = ok ; 17 t3 gift m ; 18 p0 run t3 ; 19 t3 ret = ok ; 20 t3 pthread_mutex_unlock m = ok ; 21 t2 gift m ; 22 t3 say 3 ; 23 t3 end 0 ; 24 p0 run t1 ; 25 t1 end 0 ; 26 p0 run t2 ; 27 t2 ret = ok ; 28 t2 pthread_mutex_unlock m = ok ; 29 t2 say 2 ; 30 t2 end 0 ; stop finished" stops.Finished }
{}

/// The global lock is given to the waiter of greater rank in the same way.
#[tactic(auto, unfolding(crate::specs::Words::history_words))]
pub fn global_lock_by_rank()
    ensures { RunsAlone scripts.global_lock_by_rank "1 p0 run t1 ; 2 t1 pthread_lock_global_np = ok ; 3 t1 pthread_create default w 0 = 2 ; 4 t1 pthread_yield = ok ; 5 p0 run t2 ; 6 t2 pthread_lock_global_np = blocks ; 7 p0 run t1 ; 8 t1 pthread_attr_create f = ok ; 9 t1 pthread_attr_setinheritsched f PTHREAD_DEFAULT_SCHED = ok ; 10 t1 pthread_attr_setprio f 20 = ok ; 11 t1 pthread_create f w 0 = 3 ; 12 p0 run t3 ; 13 t3 pthread_lock_global_np = blocks ; 14 p0 run t1 ; 15 t1 pthread_unlock_global_np = ok ; 16 t3 gift global ; 17 p0 run t3 ; 18 t3 ret = ok ; 19 t3 pthread_unlock_global_np = ok ; 20 t2 gift global ; 21 t3 say 3 ; 22 t3 end 0 ; 23 p0 run t1 ; 24 t1 end 0 ; 25 p0 run t2 ; 26 t2 ret = ok ; 27 t2 pthread_unlock_global_np = ok ; 28 t2 say 2 ; 29 t2 end 0 ; stop finished" stops.Finished }
{}

/// A signal takes the waiter of greater rank out of the condition, though it came later.
#[tactic(auto, unfolding(crate::specs::Words::history_words))]
pub fn condition_by_rank()
    ensures { RunsAlone scripts.condition_by_rank "1 p0 run t1 ; 2 t1 pthread_mutex_init m default = ok ; 3 t1 pthread_cond_init c = ok ; 4 t1 pthread_create default w 0 = 2 ; 5 t1 pthread_yield = ok ; 6 p0 run t2 ; 7 t2 pthread_mutex_lock m = ok ; 8 t2 pthread_cond_wait c m = blocks ; 9 p0 run t1 ; 10 t1 pthread_attr_create f = ok ; 11 t1 pthread_attr_setinheritsched f PTHREAD_DEFAULT_SCHED = ok ; 12 t1 pthread_attr_setprio f 20 = ok ; 13 t1 pthread_create f w 0 = 3 ; 14 p0 run t3 ; 15 t3 pthread_mutex_lock m = ok ; 16 t3 pthread_cond_wait c m = blocks ; 17 p0 run t1 ; 18 t1 pthread_cond_signal c = ok ; 19 t3 gift m ; 20 p0 run t3 ; 21 t3 ret = ok ; 22 t3 pthread_mutex_unlock m = ok ; 23 t3 say 3 ; 24 t3 end 0 ; 25 p0 run t1 ; 26 t1 pthread_cond_signal c = ok ; 27 t2 gift m ; 28 t1 end 0 ; 29 p0 run t2 ; 30 t2 ret = ok ; 31 t2 pthread_mutex_unlock m = ok ; 32 t2 say 2 ; 33 t2 end 0 ; stop finished" stops.Finished }
{}

/// A signal takes the timed waiter of greater rank out first; the other waits until its time.
#[tactic(auto, unfolding(crate::specs::Words::history_words))]
pub fn timed_waiters_by_rank()
    ensures { RunsAlone scripts.timed_waiters_by_rank "1 p0 run t1 ; 2 t1 pthread_mutex_init m default = ok ; 3 t1 pthread_cond_init c = ok ; 4 t1 pthread_create default w 0 = 2 ; 5 t1 pthread_yield = ok ; 6 p0 run t2 ; 7 t2 pthread_mutex_lock m = ok ; 8 t2 pthread_cond_timedwait c m 9 = blocks ; 9 p0 run t1 ; 10 t1 pthread_attr_create f = ok ; 11 t1 pthread_attr_setinheritsched f PTHREAD_DEFAULT_SCHED = ok ; 12 t1 pthread_attr_setprio f 20 = ok ; 13 t1 pthread_create f w 0 = 3 ; 14 p0 run t3 ; 15 t3 pthread_mutex_lock m = ok ; 16 t3 pthread_cond_timedwait c m 9 = blocks ; 17 p0 run t1 ; 18 t1 pthread_cond_signal c = ok ; 19 t3 gift m ; 20 p0 run t3 ; 21 t3 ret = ok ; 22 t3 say 0 ; 23 t3 pthread_mutex_unlock m = ok ; 24 t3 end 0 ; 25 p0 run t1 ; 26 t1 end 0 ; 27 clock 9 ; 28 t2 gift m ; 29 p0 run t2 ; 30 t2 ret = EAGAIN ; 31 t2 say 11 ; 32 t2 pthread_mutex_unlock m = ok ; 33 t2 end 0 ; stop finished" stops.Finished }
{}

/// An item goes to the waiting reader of greater rank, though it came later.
#[tactic(auto, unfolding(crate::specs::Words::history_words))]
pub fn readers_by_rank()
    ensures { RunsAlone scripts.readers_by_rank "1 p0 run t1 ; 2 t1 pthread_create default r 0 = 2 ; 3 t1 pthread_yield = ok ; 4 p0 run t2 ; 5 t2 read p = blocks ; 6 p0 run t1 ; 7 t1 pthread_attr_create f = ok ; 8 t1 pthread_attr_setinheritsched f PTHREAD_DEFAULT_SCHED = ok ; 9 t1 pthread_attr_setprio f 20 = ok ; 10 t1 pthread_create f r 0 = 3 ; 11 p0 run t3 ; 12 t3 read p = blocks ; 13 p0 run t1 ; 14 t1 write p 5 = ok ; 15 p0 run t3 ; 16 t3 ret = 5 ; 17 t3 say 5 ; 18 t3 end 0 ; 19 p0 run t1 ; 20 t1 write p 6 = ok ; 21 t1 end 0 ; 22 p0 run t2 ; 23 t2 ret = 6 ; 24 t2 say 6 ; 25 t2 end 0 ; stop finished" stops.Finished }
{}

/// The item of the waiting writer of greater rank enters first, though it came later.
#[tactic(auto, unfolding(crate::specs::Words::history_words))]
pub fn writers_by_rank()
    ensures { RunsAlone scripts.writers_by_rank "1 p0 run t1 ; 2 t1 write p 1 = ok ; 3 t1 pthread_create default w 0 = 2 ; 4 t1 pthread_yield = ok ; 5 p0 run t2 ; 6 t2 write p 2 = blocks ; 7 p0 run t1 ; 8 t1 pthread_attr_create f = ok ; 9 t1 pthread_attr_setinheritsched f PTHREAD_DEFAULT_SCHED = ok ; 10 t1 pthread_attr_setprio f 20 = ok ; 11 t1 pthread_create f w 0 = 3 ; 12 p0 run t3 ; 13 t3 write p 3 = blocks ; 14 p0 run t1 ; 15 t1 read p = 1 ; 16 p0 run t3 ; 17 t3 ret = ok ; 18 t3 end 0 ; 19 p0 run t1 ; 20 t1 read p = 3 ; 21 t1 say 3 ; 22 t1 read p = 2 ; 23 t1 say 2 ; 24 t1 end 0 ; 25 p0 run t2 ; 26 t2 ret = ok ; 27 t2 end 0 ; stop finished" stops.Finished }
{}

/// A once block whose routine was unwound goes to the waiter of greater rank, though it came later.
#[tactic(auto, unfolding(crate::specs::Words::history_words))]
pub fn once_by_rank()
    ensures { RunsAlone scripts.once_by_rank "1 p0 run t1 ; 2 t1 pthread_once o i = ok ; 3 t1 once 1 o ; 4 t1 pthread_create default w 0 = 2 ; 5 t1 pthread_yield = ok ; 6 p0 run t2 ; 7 t2 pthread_once o j = blocks ; 8 p0 run t1 ; 9 t1 pthread_attr_create f = ok ; 10 t1 pthread_attr_setinheritsched f PTHREAD_DEFAULT_SCHED = ok ; 11 t1 pthread_attr_setprio f 20 = ok ; 12 t1 pthread_create f w 0 = 3 ; 13 p0 run t3 ; 14 t3 pthread_once o j = blocks ; 15 p0 run t1 ; 16 t1 raise 1 e ; 17 t1 undone 1 1 ; 18 p0 run t3 ; 19 t3 ret = ok ; 20 t3 once 1 o ; 21 t3 say 3 ; 22 t3 done 1 ; 23 t3 end 0 ; 24 p0 run t1 ; 25 t1 bottom 1 -2 ; 26 t1 end -2 ; 27 p0 run t2 ; 28 t2 ret = ok ; 29 t2 end 0 ; stop finished" stops.Finished }
{}
