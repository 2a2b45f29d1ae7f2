//! Worked histories of signals, broadcasts and timed waits.

ghost use Rattle.thr_values.specs.declared.event.Stop.TheVariants as stops;
ghost use Rattle.thr_histories.specs.Runs.{RunsAlone};
ghost use Rattle.thr_histories_waits.specs.WaitScripts as scripts;

/// A signal after a cancel goes to the other waiter and is not lost.
#[tactic(auto, unfolding(crate::specs::Words::history_words))]
pub fn signal_after_cancel()
    ensures { RunsAlone scripts.signal_after_cancel "1 p0 run t1 ; 2 t1 pthread_mutex_init m default = ok ; 3 t1 pthread_cond_init c = ok ; 4 t1 pthread_create default waits 8 = 2 ; 5 t1 pthread_create default waits 9 = 3 ; 6 t1 pthread_yield = ok ; 7 p0 run t2 ; 8 t2 pthread_mutex_lock m = ok ; 9 t2 try 1 6 ; 10 t2 pthread_cond_wait c m = blocks ; 11 p0 run t3 ; 12 t3 pthread_mutex_lock m = ok ; 13 t3 try 1 6 ; 14 t3 pthread_cond_wait c m = blocks ; 15 p0 run t1 ; 16 t1 pthread_cancel 2 = wakes ; 17 t2 gift m ; 18 t1 pthread_cond_signal c = ok ; 19 t1 end 0 ; 20 p0 run t2 ; 21 t2 deliver 1 7 ; 22 t2 finally 1 1 ; 23 t2 pthread_mutex_unlock m = ok ; 24 t3 gift m ; 25 t2 endfin 1 ; 26 t2 bottom 1 -1 ; 27 t2 end -1 ; 28 p0 run t3 ; 29 t3 ret = ok ; 30 t3 say 9 ; 31 t3 finally 1 0 ; 32 t3 pthread_mutex_unlock m = ok ; 33 t3 endfin 1 ; 34 t3 end 0 ; stop finished" stops.Finished }
{}

/// A signal goes to the waiter of greater rank, which keeps its reply under a cancel and ends without a point; the other is cancelled out of its wait and gets the mutex after it.
#[tactic(auto, unfolding(crate::specs::Words::history_words))]
pub fn signal_before_cancel()
    ensures { RunsAlone scripts.signal_before_cancel "1 p0 run t1 ; 2 t1 pthread_mutex_init m default = ok ; 3 t1 pthread_cond_init c = ok ; 4 t1 pthread_create default waits 8 = 2 ; 5 t1 pthread_create default waits 9 = 3 ; 6 t1 pthread_yield = ok ; 7 p0 run t2 ; 8 t2 pthread_mutex_lock m = ok ; 9 t2 try 1 6 ; 10 t2 pthread_cond_wait c m = blocks ; 11 p0 run t3 ; 12 t3 pthread_mutex_lock m = ok ; 13 t3 try 1 6 ; 14 t3 pthread_cond_wait c m = blocks ; 15 p0 run t1 ; 16 t1 pthread_mutex_lock m = ok ; 17 t1 pthread_setprio 3 20 = 16 ; 18 t1 pthread_cond_signal c = ok ; 19 t1 pthread_cancel 3 = pending ; 20 t1 pthread_cancel 2 = wakes ; 21 t1 pthread_mutex_unlock m = ok ; 22 t3 gift m ; 23 p0 run t3 ; 24 t3 ret = ok ; 25 t3 say 9 ; 26 t3 finally 1 0 ; 27 t3 pthread_mutex_unlock m = ok ; 28 t2 gift m ; 29 t3 endfin 1 ; 30 t3 end 0 ; 31 p0 run t1 ; 32 t1 end 0 ; 33 p0 run t2 ; 34 t2 deliver 1 7 ; 35 t2 finally 1 1 ; 36 t2 pthread_mutex_unlock m = ok ; 37 t2 endfin 1 ; 38 t2 bottom 1 -1 ; 39 t2 end -1 ; stop finished" stops.Finished }
{}

/// A timed wait whose time is past replies EAGAIN at once, keeps its mutex and raises nothing; without the mutex it is EPERM, whatever the time.
#[tactic(auto, unfolding(crate::specs::Words::history_words))]
pub fn time_is_past()
    ensures { RunsAlone scripts.time_is_past "1 p0 run t1 ; 2 t1 pthread_mutex_init m default = ok ; 3 t1 pthread_cond_init c = ok ; 4 t1 pthread_mutex_lock m = ok ; 5 t1 pthread_delay_np 4 = blocks ; 6 clock 4 ; 7 p0 run t1 ; 8 t1 ret = ok ; 9 t1 pthread_cond_timedwait c m 4 = EAGAIN ; 10 t1 say 11 ; 11 t1 pthread_mutex_trylock m = 0 ; 12 t1 pthread_mutex_unlock m = ok ; 13 t1 pthread_cond_timedwait c m 3 = EPERM ; 14 t1 raise 1 use_error_e ; 15 t1 bottom 1 -2 ; 16 t1 end -2 ; stop finished" stops.Finished }
{}

/// The clock goes from time to time; a timed wait that times out while a sleeper holds its mutex makes nobody ready, and the clock goes on.
#[tactic(auto, unfolding(crate::specs::Words::history_words))]
pub fn three_times()
    ensures { RunsAlone scripts.three_times "1 p0 run t1 ; 2 t1 pthread_mutex_init m default = ok ; 3 t1 pthread_cond_init c = ok ; 4 t1 pthread_create default sleeps 7 = 2 ; 5 t1 pthread_create default holds 5 = 3 ; 6 t1 pthread_create default timed 5 = 4 ; 7 t1 end 0 ; 8 p0 run t2 ; 9 t2 pthread_delay_np 7 = blocks ; 10 p0 run t3 ; 11 t3 pthread_delay_np 3 = blocks ; 12 p0 run t4 ; 13 t4 pthread_mutex_lock m = ok ; 14 t4 pthread_cond_timedwait c m 5 = blocks ; 15 clock 3 ; 16 p0 run t3 ; 17 t3 ret = ok ; 18 t3 pthread_mutex_lock m = ok ; 19 t3 pthread_delay_np 5 = blocks ; 20 clock 5 ; 21 clock 7 ; 22 p0 run t2 ; 23 t2 ret = ok ; 24 t2 say 7 ; 25 t2 end 0 ; 26 clock 8 ; 27 p0 run t3 ; 28 t3 ret = ok ; 29 t3 pthread_mutex_unlock m = ok ; 30 t4 gift m ; 31 t3 end 0 ; 32 p0 run t4 ; 33 t4 ret = EAGAIN ; 34 t4 say 11 ; 35 t4 pthread_mutex_unlock m = ok ; 36 t4 end 0 ; stop finished" stops.Finished }
{}

/// A signal goes to the timed wait that began first and not to the one whose time is nearer; a wait that was signalled no longer counts for the clock.
#[tactic(auto, unfolding(crate::specs::Words::history_words))]
pub fn signalled_before_its_time()
    ensures { RunsAlone scripts.signalled_before_its_time "1 p0 run t1 ; 2 t1 pthread_mutex_init m default = ok ; 3 t1 pthread_cond_init c = ok ; 4 t1 pthread_create default timed 6 = 2 ; 5 t1 pthread_create default timed 4 = 3 ; 6 t1 pthread_delay_np 2 = blocks ; 7 p0 run t2 ; 8 t2 pthread_mutex_lock m = ok ; 9 t2 pthread_cond_timedwait c m 6 = blocks ; 10 p0 run t3 ; 11 t3 pthread_mutex_lock m = ok ; 12 t3 pthread_cond_timedwait c m 4 = blocks ; 13 clock 2 ; 14 p0 run t1 ; 15 t1 ret = ok ; 16 t1 pthread_cond_signal c = ok ; 17 t2 gift m ; 18 t1 pthread_delay_np 6 = blocks ; 19 p0 run t2 ; 20 t2 ret = ok ; 21 t2 say 0 ; 22 t2 pthread_mutex_unlock m = ok ; 23 t2 end 0 ; 24 clock 4 ; 25 t3 gift m ; 26 p0 run t3 ; 27 t3 ret = EAGAIN ; 28 t3 say 11 ; 29 t3 pthread_mutex_unlock m = ok ; 30 t3 end 0 ; 31 clock 8 ; 32 p0 run t1 ; 33 t1 ret = ok ; 34 t1 pthread_cond_signal c = ok ; 35 t1 end 0 ; stop finished" stops.Finished }
{}

/// At one move of the clock the timed wait of greater rank gets the mutex, though it began later, and the rest follow by the arrival of their waits.
#[tactic(auto, unfolding(crate::specs::Words::history_words))]
pub fn ranks_at_one_time()
    ensures { RunsAlone scripts.ranks_at_one_time "1 p0 run t1 ; 2 t1 pthread_mutex_init m default = ok ; 3 t1 pthread_cond_init c = ok ; 4 t1 pthread_create default timed 0 = 2 ; 5 t1 pthread_create default timed 0 = 3 ; 6 t1 pthread_yield = ok ; 7 p0 run t2 ; 8 t2 pthread_mutex_lock m = ok ; 9 t2 pthread_cond_timedwait c m 5 = blocks ; 10 p0 run t3 ; 11 t3 pthread_mutex_lock m = ok ; 12 t3 pthread_cond_timedwait c m 5 = blocks ; 13 p0 run t1 ; 14 t1 pthread_setprio 3 20 = 16 ; 15 t1 pthread_delay_np 5 = blocks ; 16 clock 5 ; 17 t3 gift m ; 18 p0 run t3 ; 19 t3 ret = EAGAIN ; 20 t3 pthread_mutex_unlock m = ok ; 21 t2 gift m ; 22 t3 end 0 ; 23 p0 run t1 ; 24 t1 ret = ok ; 25 t1 end 0 ; 26 p0 run t2 ; 27 t2 ret = EAGAIN ; 28 t2 pthread_mutex_unlock m = ok ; 29 t2 end 0 ; stop finished" stops.Finished }
{}

/// A broadcast by the owner lets the waiters wait for the mutex, best first: one that had the greatest rank then is the first still when its rank is lowered.
#[tactic(auto, unfolding(crate::specs::Words::history_words))]
pub fn broadcast_with_held_mutex()
    ensures { RunsAlone scripts.broadcast_with_held_mutex "1 p0 run t1 ; 2 t1 pthread_mutex_init m default = ok ; 3 t1 pthread_cond_init c = ok ; 4 t1 pthread_create default waits 1 = 2 ; 5 t1 pthread_create default waits 2 = 3 ; 6 t1 pthread_create default waits 3 = 4 ; 7 t1 pthread_yield = ok ; 8 p0 run t2 ; 9 t2 pthread_mutex_lock m = ok ; 10 t2 pthread_cond_wait c m = blocks ; 11 p0 run t3 ; 12 t3 pthread_mutex_lock m = ok ; 13 t3 pthread_cond_wait c m = blocks ; 14 p0 run t4 ; 15 t4 pthread_mutex_lock m = ok ; 16 t4 pthread_cond_wait c m = blocks ; 17 p0 run t1 ; 18 t1 pthread_setprio 3 20 = 16 ; 19 t1 pthread_mutex_lock m = ok ; 20 t1 pthread_cond_broadcast c = ok ; 21 t1 pthread_setprio 3 16 = 20 ; 22 t1 pthread_mutex_unlock m = ok ; 23 t3 gift m ; 24 t1 end 0 ; 25 p0 run t3 ; 26 t3 ret = ok ; 27 t3 say 2 ; 28 t3 pthread_mutex_unlock m = ok ; 29 t2 gift m ; 30 t3 end 0 ; 31 p0 run t2 ; 32 t2 ret = ok ; 33 t2 say 1 ; 34 t2 pthread_mutex_unlock m = ok ; 35 t4 gift m ; 36 t2 end 0 ; 37 p0 run t4 ; 38 t4 ret = ok ; 39 t4 say 3 ; 40 t4 pthread_mutex_unlock m = ok ; 41 t4 end 0 ; stop finished" stops.Finished }
{}

/// A broadcast gives the free mutex to the waiter of greatest rank, which takes the processor; the others get it by rank from owner to owner.
#[tactic(auto, unfolding(crate::specs::Words::history_words))]
pub fn broadcast_with_free_mutex()
    ensures { RunsAlone scripts.broadcast_with_free_mutex "1 p0 run t1 ; 2 t1 pthread_mutex_init m default = ok ; 3 t1 pthread_cond_init c = ok ; 4 t1 pthread_create default waits 1 = 2 ; 5 t1 pthread_create default waits 2 = 3 ; 6 t1 pthread_create default waits 3 = 4 ; 7 t1 pthread_yield = ok ; 8 p0 run t2 ; 9 t2 pthread_mutex_lock m = ok ; 10 t2 pthread_cond_wait c m = blocks ; 11 p0 run t3 ; 12 t3 pthread_mutex_lock m = ok ; 13 t3 pthread_cond_wait c m = blocks ; 14 p0 run t4 ; 15 t4 pthread_mutex_lock m = ok ; 16 t4 pthread_cond_wait c m = blocks ; 17 p0 run t1 ; 18 t1 pthread_setprio 3 20 = 16 ; 19 t1 pthread_setprio 4 18 = 16 ; 20 t1 pthread_cond_broadcast c = ok ; 21 t3 gift m ; 22 p0 run t3 ; 23 t3 ret = ok ; 24 t3 say 2 ; 25 t3 pthread_mutex_unlock m = ok ; 26 t4 gift m ; 27 t3 end 0 ; 28 p0 run t4 ; 29 t4 ret = ok ; 30 t4 say 3 ; 31 t4 pthread_mutex_unlock m = ok ; 32 t2 gift m ; 33 t4 end 0 ; 34 p0 run t1 ; 35 t1 say 4 ; 36 t1 end 0 ; 37 p0 run t2 ; 38 t2 ret = ok ; 39 t2 say 1 ; 40 t2 pthread_mutex_unlock m = ok ; 41 t2 end 0 ; stop finished" stops.Finished }
{}

/// A thread that gets the mutex in the last turn of its giver is ready before the giver is.
#[tactic(auto, unfolding(crate::specs::Words::history_words))]
pub fn woken_before_its_waker()
    ensures { RunsAlone scripts.woken_before_its_waker "1 p0 run t1 ; 2 t1 pthread_mutex_init m default = ok ; 3 t1 pthread_mutex_lock m = ok ; 4 t1 pthread_create default locks 0 = 2 ; 5 t1 pthread_yield = ok ; 6 p0 run t2 ; 7 t2 pthread_mutex_lock m = blocks ; 8 p0 run t1 ; 9 t1 say 1 ; 10 t1 say 2 ; 11 t1 say 3 ; 12 t1 say 4 ; 13 t1 say 5 ; 14 t1 say 6 ; 15 t1 say 7 ; 16 t1 pthread_mutex_unlock m = ok ; 17 t2 gift m ; 18 p0 run t2 ; 19 t2 ret = ok ; 20 t2 end 0 ; 21 p0 run t1 ; 22 t1 say 8 ; 23 t1 end 0 ; stop finished" stops.Finished }
{}

/// A mutex that a thread waits with, or that is owned, is not destroyed; of the refusals of a wait, no owner comes before another mutex, depth two before a time that is past, and a mutex that is not made first of all.
#[tactic(auto, unfolding(crate::specs::Words::history_words))]
pub fn refused_waits()
    ensures { RunsAlone scripts.refused_waits "1 p0 run t1 ; 2 t1 pthread_mutexattr_create k = ok ; 3 t1 pthread_mutexattr_setkind_np k MUTEX_RECURSIVE_NP = ok ; 4 t1 pthread_mutex_init m default = ok ; 5 t1 pthread_mutex_init n k = ok ; 6 t1 pthread_cond_init c = ok ; 7 t1 pthread_create default waits 0 = 2 ; 8 t1 pthread_yield = ok ; 9 p0 run t2 ; 10 t2 pthread_mutex_lock m = ok ; 11 t2 pthread_cond_wait c m = blocks ; 12 p0 run t1 ; 13 t1 pthread_mutex_destroy m = EBUSY ; 14 t1 pthread_cond_wait c n = EPERM ; 15 t1 pthread_mutex_lock n = ok ; 16 t1 pthread_cond_wait c n = EINVAL ; 17 t1 pthread_cond_signal c = ok ; 18 t2 gift m ; 19 t1 pthread_mutex_lock n = ok ; 20 t1 pthread_cond_timedwait c n 0 = EINVAL ; 21 t1 pthread_mutex_destroy m = EBUSY ; 22 p0 run t2 ; 23 t2 ret = ok ; 24 t2 pthread_mutex_unlock m = ok ; 25 t2 end 0 ; 26 p0 run t1 ; 27 t1 say 16 ; 28 t1 pthread_mutex_destroy m = ok ; 29 t1 pthread_cond_wait c m = EINVAL ; 30 t1 pthread_mutex_unlock n = ok ; 31 t1 pthread_cond_timedwait c n 0 = EAGAIN ; 32 t1 say 11 ; 33 t1 end 0 ; stop finished" stops.Finished }
{}

/// A wait hands its mutex over in its own step, and so does a timed wait, whose error raises nothing.
#[tactic(auto, unfolding(crate::specs::Words::history_words))]
pub fn wait_hands_over()
    ensures { RunsAlone scripts.wait_hands_over "1 p0 run t1 ; 2 t1 pthread_mutex_init m default = ok ; 3 t1 pthread_cond_init c = ok ; 4 t1 pthread_create default waits 0 = 2 ; 5 t1 pthread_create default signals 7 = 3 ; 6 t1 end 0 ; 7 p0 run t2 ; 8 t2 pthread_mutex_lock m = ok ; 9 t2 pthread_yield = ok ; 10 p0 run t3 ; 11 t3 pthread_mutex_lock m = blocks ; 12 p0 run t2 ; 13 t2 pthread_cond_wait c m = blocks ; 14 t3 gift m ; 15 p0 run t3 ; 16 t3 ret = ok ; 17 t3 pthread_cond_signal c = ok ; 18 t3 pthread_cond_timedwait c m 7 = blocks ; 19 t2 gift m ; 20 p0 run t2 ; 21 t2 ret = ok ; 22 t2 pthread_mutex_unlock m = ok ; 23 t2 end 0 ; 24 clock 7 ; 25 t3 gift m ; 26 p0 run t3 ; 27 t3 ret = EAGAIN ; 28 t3 pthread_mutex_unlock m = ok ; 29 t3 end 0 ; stop finished" stops.Finished }
{}

/// A timed wait that was signalled in time keeps its reply though it gets its mutex after its time, and the clock does not stop at that time.
#[tactic(auto, unfolding(crate::specs::Words::history_words))]
pub fn signalled_and_late()
    ensures { RunsAlone scripts.signalled_and_late "1 p0 run t1 ; 2 t1 pthread_mutex_init m default = ok ; 3 t1 pthread_cond_init c = ok ; 4 t1 pthread_create default timed 0 = 2 ; 5 t1 pthread_yield = ok ; 6 p0 run t2 ; 7 t2 pthread_mutex_lock m = ok ; 8 t2 pthread_cond_timedwait c m 5 = blocks ; 9 p0 run t1 ; 10 t1 pthread_mutex_lock m = ok ; 11 t1 pthread_cond_signal c = ok ; 12 t1 pthread_get_expiration_np 9 = 9 ; 13 t1 pthread_delay_np 9 = blocks ; 14 clock 9 ; 15 p0 run t1 ; 16 t1 ret = ok ; 17 t1 pthread_mutex_unlock m = ok ; 18 t2 gift m ; 19 t1 end 0 ; 20 p0 run t2 ; 21 t2 ret = ok ; 22 t2 say 0 ; 23 t2 pthread_mutex_unlock m = ok ; 24 t2 end 0 ; stop finished" stops.Finished }
{}

/// A timed wait whose time has come keeps its error under a signal and a cancel; the delivery at the next wait leaves the mutex and the error number.
#[tactic(auto, unfolding(crate::specs::Words::history_words))]
pub fn timed_out_then_signalled()
    ensures { RunsAlone scripts.timed_out_then_signalled "1 p0 run t1 ; 2 t1 pthread_mutex_init m default = ok ; 3 t1 pthread_cond_init c = ok ; 4 t1 pthread_create default timed 0 = 2 ; 5 t1 pthread_yield = ok ; 6 p0 run t2 ; 7 t2 pthread_mutex_lock m = ok ; 8 t2 try 1 6 ; 9 t2 pthread_cond_timedwait c m 5 = blocks ; 10 p0 run t1 ; 11 t1 pthread_mutex_lock m = ok ; 12 t1 pthread_delay_np 6 = blocks ; 13 clock 5 ; 14 clock 6 ; 15 p0 run t1 ; 16 t1 ret = ok ; 17 t1 pthread_cond_signal c = ok ; 18 t1 pthread_cancel 2 = pending ; 19 t1 pthread_mutex_unlock m = ok ; 20 t2 gift m ; 21 t1 end 0 ; 22 p0 run t2 ; 23 t2 ret = EAGAIN ; 24 t2 deliver 1 8 ; 25 t2 catch 1 1 9 ; 26 t2 say 11 ; 27 t2 pthread_mutex_unlock m = ok ; 28 t2 endcatch 1 ; 29 t2 end 0 ; stop finished" stops.Finished }
{}

/// A condition that is waited on is not destroyed; a waiter that was cancelled no longer counts there, and a mutex stays with an owner that has ended.
#[tactic(auto, unfolding(crate::specs::Words::history_words))]
pub fn destroyed_condition()
    ensures { RunsAlone scripts.destroyed_condition "1 p0 run t1 ; 2 t1 pthread_mutex_init m default = ok ; 3 t1 pthread_cond_init c = ok ; 4 t1 pthread_create default waits 0 = 2 ; 5 t1 pthread_yield = ok ; 6 p0 run t2 ; 7 t2 pthread_mutex_lock m = ok ; 8 t2 pthread_cond_wait c m = blocks ; 9 p0 run t1 ; 10 t1 pthread_mutex_lock m = ok ; 11 t1 pthread_cond_destroy c = EBUSY ; 12 t1 pthread_cancel 2 = wakes ; 13 t1 pthread_cond_destroy c = ok ; 14 t1 pthread_cond_broadcast c = EINVAL ; 15 t1 pthread_cond_init c = ok ; 16 t1 pthread_mutex_unlock m = ok ; 17 t2 gift m ; 18 t1 pthread_mutex_destroy m = EBUSY ; 19 p0 run t2 ; 20 t2 deliver 1 7 ; 21 t2 bottom 1 -1 ; 22 t2 end -1 ; 23 p0 run t1 ; 24 t1 pthread_mutex_unlock m = EPERM ; 25 t1 pthread_mutex_destroy m = EBUSY ; 26 t1 end 0 ; stop finished" stops.Finished }
{}

/// A delay and an expiration that are negative, or that end at a time outside 64 bits, are refused, and the variable stays.
#[tactic(auto, unfolding(crate::specs::Words::history_words))]
pub fn times_out_of_range()
    ensures { RunsAlone scripts.times_out_of_range "1 p0 run t1 ; 2 t1 pthread_delay_np -1 = EINVAL ; 3 t1 pthread_delay_np 1 = blocks ; 4 clock 1 ; 5 p0 run t1 ; 6 t1 ret = ok ; 7 t1 pthread_delay_np 9223372036854775807 = EINVAL ; 8 t1 say 22 ; 9 t1 pthread_get_expiration_np 9223372036854775806 = 9223372036854775807 ; 10 t1 say 9223372036854775807 ; 11 t1 pthread_get_expiration_np -1 = EINVAL ; 12 t1 pthread_get_expiration_np 9223372036854775807 = EINVAL ; 13 t1 say 9223372036854775807 ; 14 t1 end 0 ; stop finished" stops.Finished }
{}

/// A move of the clock makes the sleepers ready best first, and the order stays when their ranks are equal then.
#[tactic(auto, unfolding(crate::specs::Words::history_words))]
pub fn clock_wakes_best_first()
    ensures { RunsAlone scripts.clock_wakes_best_first "1 p0 run t1 ; 2 t1 pthread_create default sleeps 2 = 2 ; 3 t1 pthread_create default sleeps 3 = 3 ; 4 t1 pthread_yield = ok ; 5 p0 run t2 ; 6 t2 pthread_delay_np 5 = blocks ; 7 p0 run t3 ; 8 t3 pthread_delay_np 5 = blocks ; 9 p0 run t1 ; 10 t1 pthread_setprio 2 10 = 16 ; 11 t1 pthread_setprio 3 12 = 16 ; 12 t1 pthread_delay_np 5 = blocks ; 13 clock 5 ; 14 p0 run t1 ; 15 t1 ret = ok ; 16 t1 pthread_setprio 2 16 = 10 ; 17 t1 pthread_setprio 3 16 = 12 ; 18 t1 end 0 ; 19 p0 run t3 ; 20 t3 ret = ok ; 21 t3 say 3 ; 22 t3 end 0 ; 23 p0 run t2 ; 24 t2 ret = ok ; 25 t2 say 2 ; 26 t2 end 0 ; stop finished" stops.Finished }
{}

/// Timed waits that time out while their mutex is held wait for it in the order in which they leave, best first, and that order stays when the rank is lowered.
#[tactic(auto, unfolding(crate::specs::Words::history_words))]
pub fn times_with_held_mutex()
    ensures { RunsAlone scripts.times_with_held_mutex "1 p0 run t1 ; 2 t1 pthread_mutex_init m default = ok ; 3 t1 pthread_cond_init c = ok ; 4 t1 pthread_create default timed 2 = 2 ; 5 t1 pthread_create default timed 3 = 3 ; 6 t1 pthread_yield = ok ; 7 p0 run t2 ; 8 t2 pthread_mutex_lock m = ok ; 9 t2 pthread_cond_timedwait c m 5 = blocks ; 10 p0 run t3 ; 11 t3 pthread_mutex_lock m = ok ; 12 t3 pthread_cond_timedwait c m 5 = blocks ; 13 p0 run t1 ; 14 t1 pthread_setprio 3 20 = 16 ; 15 t1 pthread_mutex_lock m = ok ; 16 t1 pthread_delay_np 6 = blocks ; 17 clock 5 ; 18 clock 6 ; 19 p0 run t1 ; 20 t1 ret = ok ; 21 t1 pthread_setprio 3 16 = 20 ; 22 t1 pthread_mutex_unlock m = ok ; 23 t3 gift m ; 24 t1 end 0 ; 25 p0 run t3 ; 26 t3 ret = EAGAIN ; 27 t3 say 3 ; 28 t3 pthread_mutex_unlock m = ok ; 29 t2 gift m ; 30 t3 end 0 ; 31 p0 run t2 ; 32 t2 ret = EAGAIN ; 33 t2 say 2 ; 34 t2 pthread_mutex_unlock m = ok ; 35 t2 end 0 ; stop finished" stops.Finished }
{}

/// A broadcast ends the times of all waits on its condition: the clock does not stop at them, and the waits get the mutex in the order in which they began.
#[tactic(auto, unfolding(crate::specs::Words::history_words))]
pub fn broadcast_ends_times()
    ensures { RunsAlone scripts.broadcast_ends_times "1 p0 run t1 ; 2 t1 pthread_mutex_init m default = ok ; 3 t1 pthread_cond_init c = ok ; 4 t1 pthread_create default timed 5 = 2 ; 5 t1 pthread_create default timed 3 = 3 ; 6 t1 pthread_yield = ok ; 7 p0 run t2 ; 8 t2 pthread_mutex_lock m = ok ; 9 t2 pthread_cond_timedwait c m 5 = blocks ; 10 p0 run t3 ; 11 t3 pthread_mutex_lock m = ok ; 12 t3 pthread_cond_timedwait c m 3 = blocks ; 13 p0 run t1 ; 14 t1 pthread_mutex_lock m = ok ; 15 t1 pthread_cond_broadcast c = ok ; 16 t1 pthread_delay_np 9 = blocks ; 17 clock 9 ; 18 p0 run t1 ; 19 t1 ret = ok ; 20 t1 pthread_mutex_unlock m = ok ; 21 t2 gift m ; 22 t1 end 0 ; 23 p0 run t2 ; 24 t2 ret = ok ; 25 t2 say 0 ; 26 t2 pthread_mutex_unlock m = ok ; 27 t3 gift m ; 28 t2 end 0 ; 29 p0 run t3 ; 30 t3 ret = ok ; 31 t3 say 0 ; 32 t3 pthread_mutex_unlock m = ok ; 33 t3 end 0 ; stop finished" stops.Finished }
{}

/// The gifts of one move of the clock stand in the order in which the waits leave, best first across both conditions; one that finds its mutex given away gets it later.
#[tactic(auto, unfolding(crate::specs::Words::history_words))]
pub fn gifts_at_one_time()
    ensures { RunsAlone scripts.gifts_at_one_time "1 p0 run t1 ; 2 t1 pthread_mutex_init m default = ok ; 3 t1 pthread_mutex_init n default = ok ; 4 t1 pthread_cond_init c = ok ; 5 t1 pthread_cond_init d = ok ; 6 t1 pthread_create default first 0 = 2 ; 7 t1 pthread_create default second 0 = 3 ; 8 t1 pthread_create default first 0 = 4 ; 9 t1 pthread_yield = ok ; 10 p0 run t2 ; 11 t2 pthread_mutex_lock m = ok ; 12 t2 pthread_cond_timedwait c m 5 = blocks ; 13 p0 run t3 ; 14 t3 pthread_mutex_lock n = ok ; 15 t3 pthread_cond_timedwait d n 5 = blocks ; 16 p0 run t4 ; 17 t4 pthread_mutex_lock m = ok ; 18 t4 pthread_cond_timedwait c m 5 = blocks ; 19 p0 run t1 ; 20 t1 pthread_setprio 3 20 = 16 ; 21 t1 end 0 ; 22 clock 5 ; 23 t3 gift n ; 24 t2 gift m ; 25 p0 run t3 ; 26 t3 ret = EAGAIN ; 27 t3 end 0 ; 28 p0 run t2 ; 29 t2 ret = EAGAIN ; 30 t2 pthread_mutex_unlock m = ok ; 31 t4 gift m ; 32 t2 end 0 ; 33 p0 run t4 ; 34 t4 ret = EAGAIN ; 35 t4 pthread_mutex_unlock m = ok ; 36 t4 end 0 ; stop finished" stops.Finished }
{}
