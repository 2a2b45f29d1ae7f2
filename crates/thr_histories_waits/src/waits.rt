//! Worked histories of waits that are cancelled.

ghost use Rattle.thr_values.specs.declared.event.Stop.TheVariants as stops;
ghost use Rattle.thr_histories.specs.Runs.{RunsAlone};
ghost use Rattle.thr_histories_waits.specs.WaitScripts as scripts;

/// A delay, a join, a read and a write are cancelled, in another order than they began; the item of the cancelled writer enters no pipe, and an ended thread gets `ended`.
#[tactic(auto, unfolding(crate::specs::Words::history_words))]
pub fn cancels_at_points()
    ensures { RunsAlone scripts.cancels_at_points "1 p0 run t1 ; 2 t1 write q 8 = ok ; 3 t1 pthread_create default sleeps 0 = 2 ; 4 t1 pthread_create default joins 0 = 3 ; 5 t1 pthread_create default reads 0 = 4 ; 6 t1 pthread_create default writes 9 = 5 ; 7 t1 pthread_yield = ok ; 8 p0 run t2 ; 9 t2 pthread_delay_np 5 = blocks ; 10 p0 run t3 ; 11 t3 pthread_join 1 = blocks ; 12 p0 run t4 ; 13 t4 read p = blocks ; 14 p0 run t5 ; 15 t5 write q 9 = blocks ; 16 p0 run t1 ; 17 t1 pthread_cancel 5 = wakes ; 18 t1 pthread_cancel 3 = wakes ; 19 t1 pthread_cancel 4 = wakes ; 20 t1 pthread_cancel 2 = wakes ; 21 t1 pthread_cancel 3 = merged ; 22 t1 write p 1 = ok ; 23 t1 read p = 1 ; 24 t1 read q = 8 ; 25 p0 run t5 ; 26 t5 deliver 1 17 ; 27 t5 bottom 1 -1 ; 28 t5 end -1 ; 29 p0 run t3 ; 30 t3 deliver 1 9 ; 31 t3 bottom 1 -1 ; 32 t3 end -1 ; 33 p0 run t4 ; 34 t4 deliver 1 14 ; 35 t4 bottom 1 -1 ; 36 t4 end -1 ; 37 p0 run t2 ; 38 t2 deliver 1 5 ; 39 t2 bottom 1 -1 ; 40 t2 end -1 ; 41 p0 run t1 ; 42 t1 write q 3 = ok ; 43 t1 read q = 3 ; 44 t1 pthread_cancel 3 = ended ; 45 t1 end 0 ; stop finished" stops.Finished }
{}

/// A cancelled wait gets its free mutex at once; a cancelled timed wait waits for the mutex, its time is gone, and a second cancel merges.
#[tactic(auto, unfolding(crate::specs::Words::history_words))]
pub fn cancels_at_conditions()
    ensures { RunsAlone scripts.cancels_at_conditions "1 p0 run t1 ; 2 t1 pthread_mutex_init m default = ok ; 3 t1 pthread_cond_init c = ok ; 4 t1 pthread_create default waits 0 = 2 ; 5 t1 pthread_create default timed 0 = 3 ; 6 t1 pthread_yield = ok ; 7 p0 run t2 ; 8 t2 pthread_mutex_lock m = ok ; 9 t2 try 1 6 ; 10 t2 pthread_cond_wait c m = blocks ; 11 p0 run t3 ; 12 t3 pthread_mutex_lock m = ok ; 13 t3 try 1 14 ; 14 t3 pthread_cond_timedwait c m 9 = blocks ; 15 p0 run t1 ; 16 t1 pthread_cancel 2 = wakes ; 17 t2 gift m ; 18 t1 pthread_cancel 3 = wakes ; 19 t1 pthread_cancel 3 = merged ; 20 t1 pthread_delay_np 20 = blocks ; 21 p0 run t2 ; 22 t2 deliver 1 7 ; 23 t2 finally 1 1 ; 24 t2 pthread_mutex_unlock m = ok ; 25 t3 gift m ; 26 t2 endfin 1 ; 27 t2 bottom 1 -1 ; 28 t2 end -1 ; 29 p0 run t3 ; 30 t3 deliver 1 15 ; 31 t3 catch 1 1 16 ; 32 t3 pthread_mutex_unlock m = ok ; 33 t3 endcatch 1 ; 34 t3 end 0 ; 35 clock 20 ; 36 p0 run t1 ; 37 t1 ret = ok ; 38 t1 pthread_cond_signal c = ok ; 39 t1 end 0 ; stop finished" stops.Finished }
{}

/// A wait that is cancelled while its mutex is held takes its place behind a thread that waits for that mutex already.
#[tactic(auto, unfolding(crate::specs::Words::history_words))]
pub fn cancelled_waiter_behind_locker()
    ensures { RunsAlone scripts.cancelled_waiter_behind_locker "1 p0 run t1 ; 2 t1 pthread_mutex_init m default = ok ; 3 t1 pthread_cond_init c = ok ; 4 t1 pthread_create default waits 0 = 2 ; 5 t1 pthread_yield = ok ; 6 p0 run t2 ; 7 t2 pthread_mutex_lock m = ok ; 8 t2 pthread_cond_wait c m = blocks ; 9 p0 run t1 ; 10 t1 pthread_mutex_lock m = ok ; 11 t1 pthread_create default locks 0 = 3 ; 12 t1 pthread_yield = ok ; 13 p0 run t3 ; 14 t3 pthread_mutex_lock m = blocks ; 15 p0 run t1 ; 16 t1 pthread_cancel 2 = wakes ; 17 t1 pthread_mutex_unlock m = ok ; 18 t3 gift m ; 19 t1 end 0 ; 20 p0 run t3 ; 21 t3 ret = ok ; 22 t3 pthread_mutex_unlock m = ok ; 23 t2 gift m ; 24 t3 end 0 ; 25 p0 run t2 ; 26 t2 deliver 1 6 ; 27 t2 bottom 1 -1 ; 28 t2 end -1 ; stop finished" stops.Finished }
{}

/// A wait for a mutex, the global lock or a once block is no point: the cancel is pending until a point comes.
#[tactic(auto, unfolding(crate::specs::Words::history_words))]
pub fn cancels_at_locks()
    ensures { RunsAlone scripts.cancels_at_locks "1 p0 run t1 ; 2 t1 pthread_mutex_init m default = ok ; 3 t1 pthread_mutex_lock m = ok ; 4 t1 pthread_lock_global_np = ok ; 5 t1 pthread_create default onces 0 = 2 ; 6 t1 pthread_create default onces 0 = 3 ; 7 t1 pthread_create default locks 0 = 4 ; 8 t1 pthread_create default globals 0 = 5 ; 9 t1 pthread_yield = ok ; 10 p0 run t2 ; 11 t2 pthread_once o init = ok ; 12 t2 once 1 o ; 13 t2 pthread_yield = ok ; 14 p0 run t3 ; 15 t3 pthread_once o init = blocks ; 16 p0 run t4 ; 17 t4 pthread_mutex_lock m = blocks ; 18 p0 run t5 ; 19 t5 pthread_lock_global_np = blocks ; 20 p0 run t1 ; 21 t1 pthread_cancel 3 = pending ; 22 t1 pthread_cancel 4 = pending ; 23 t1 pthread_cancel 5 = pending ; 24 t1 pthread_mutex_unlock m = ok ; 25 t4 gift m ; 26 t1 pthread_unlock_global_np = ok ; 27 t5 gift global ; 28 t1 end 0 ; 29 p0 run t2 ; 30 t2 done 1 ; 31 t2 pthread_testcancel = ok ; 32 t2 end 0 ; 33 p0 run t4 ; 34 t4 ret = ok ; 35 t4 deliver 1 9 ; 36 t4 bottom 1 -1 ; 37 t4 end -1 ; 38 p0 run t5 ; 39 t5 ret = ok ; 40 t5 pthread_unlock_global_np = ok ; 41 t5 deliver 1 14 ; 42 t5 bottom 1 -1 ; 43 t5 end -1 ; 44 p0 run t3 ; 45 t3 ret = ok ; 46 t3 deliver 1 18 ; 47 t3 bottom 1 -1 ; 48 t3 end -1 ; stop finished" stops.Finished }
{}

/// With general cancelability off a delay, a join and a timed wait go on under a cancel; it is delivered at the next point after cancelability is on again, and the mutex stays with its owner.
#[tactic(auto, unfolding(crate::specs::Words::history_words))]
pub fn waits_with_cancelability_off()
    ensures { RunsAlone scripts.waits_with_cancelability_off "1 p0 run t1 ; 2 t1 pthread_mutex_init m default = ok ; 3 t1 pthread_cond_init c = ok ; 4 t1 pthread_create default sleeps 3 = 2 ; 5 t1 pthread_create default joins 2 = 3 ; 6 t1 pthread_create default timed 6 = 4 ; 7 t1 pthread_yield = ok ; 8 p0 run t2 ; 9 t2 pthread_setcancel CANCEL_OFF = 1 ; 10 t2 pthread_delay_np 3 = blocks ; 11 p0 run t3 ; 12 t3 pthread_setcancel CANCEL_OFF = 1 ; 13 t3 pthread_join 2 = blocks ; 14 p0 run t4 ; 15 t4 pthread_mutex_lock m = ok ; 16 t4 pthread_setcancel CANCEL_OFF = 1 ; 17 t4 pthread_cond_timedwait c m 6 = blocks ; 18 p0 run t1 ; 19 t1 pthread_cancel 4 = pending ; 20 t1 pthread_cancel 3 = pending ; 21 t1 pthread_cancel 2 = pending ; 22 t1 end 0 ; 23 clock 3 ; 24 p0 run t2 ; 25 t2 ret = ok ; 26 t2 pthread_setcancel CANCEL_ON = 0 ; 27 t2 deliver 1 9 ; 28 t2 bottom 1 -1 ; 29 t2 end -1 ; 30 p0 run t3 ; 31 t3 ret = -1 ; 32 t3 pthread_setcancel CANCEL_ON = 0 ; 33 t3 say -1 ; 34 t3 deliver 1 17 ; 35 t3 bottom 1 -1 ; 36 t3 end -1 ; 37 clock 6 ; 38 t4 gift m ; 39 p0 run t4 ; 40 t4 ret = EAGAIN ; 41 t4 pthread_setcancel CANCEL_ON = 0 ; 42 t4 deliver 1 25 ; 43 t4 bottom 1 -1 ; 44 t4 end -1 ; stop finished" stops.Finished }
{}

/// With general cancelability off a reader gets its item and a writer puts its own in under a cancel; at the next read or write the cancel is delivered before the pipe or an operand is looked at.
#[tactic(auto, unfolding(crate::specs::Words::history_words))]
pub fn pipes_with_cancelability_off()
    ensures { RunsAlone scripts.pipes_with_cancelability_off "1 p0 run t1 ; 2 t1 write q 1 = ok ; 3 t1 pthread_create default reads 0 = 2 ; 4 t1 pthread_create default writes 2 = 3 ; 5 t1 pthread_yield = ok ; 6 p0 run t2 ; 7 t2 pthread_setcancel CANCEL_OFF = 1 ; 8 t2 read p = blocks ; 9 p0 run t3 ; 10 t3 pthread_setcancel CANCEL_OFF = 1 ; 11 t3 write q 2 = blocks ; 12 p0 run t1 ; 13 t1 pthread_cancel 2 = pending ; 14 t1 pthread_cancel 3 = pending ; 15 t1 write p 5 = ok ; 16 t1 write p 6 = ok ; 17 t1 read q = 1 ; 18 t1 pthread_yield = ok ; 19 p0 run t2 ; 20 t2 ret = 5 ; 21 t2 pthread_setcancel CANCEL_ON = 0 ; 22 t2 deliver 1 9 ; 23 t2 bottom 1 -1 ; 24 t2 end -1 ; 25 p0 run t3 ; 26 t3 ret = ok ; 27 t3 pthread_setcancel CANCEL_ON = 0 ; 28 t3 deliver 1 16 ; 29 t3 bottom 1 -1 ; 30 t3 end -1 ; 31 p0 run t1 ; 32 t1 read p = 6 ; 33 t1 read q = 2 ; 34 t1 end 0 ; stop finished" stops.Finished }
{}

/// With general cancelability off a wait on a condition, a wait for a mutex in a once routine and a wait for that block go on under a cancel; a point passes until cancelability is on again.
#[tactic(auto, unfolding(crate::specs::Words::history_words))]
pub fn locks_with_cancelability_off()
    ensures { RunsAlone scripts.locks_with_cancelability_off "1 p0 run t1 ; 2 t1 pthread_mutex_init m default = ok ; 3 t1 pthread_cond_init c = ok ; 4 t1 pthread_create default waits 0 = 2 ; 5 t1 pthread_yield = ok ; 6 p0 run t2 ; 7 t2 pthread_setcancel CANCEL_OFF = 1 ; 8 t2 pthread_mutex_lock m = ok ; 9 t2 pthread_cond_wait c m = blocks ; 10 p0 run t1 ; 11 t1 pthread_mutex_lock m = ok ; 12 t1 pthread_create default onces 0 = 3 ; 13 t1 pthread_create default onces 0 = 4 ; 14 t1 pthread_yield = ok ; 15 p0 run t3 ; 16 t3 pthread_setcancel CANCEL_OFF = 1 ; 17 t3 pthread_once o init = ok ; 18 t3 once 1 o ; 19 t3 pthread_mutex_lock m = blocks ; 20 p0 run t4 ; 21 t4 pthread_setcancel CANCEL_OFF = 1 ; 22 t4 pthread_once o init = blocks ; 23 p0 run t1 ; 24 t1 pthread_cancel 2 = pending ; 25 t1 pthread_cancel 3 = pending ; 26 t1 pthread_cancel 4 = pending ; 27 t1 pthread_cond_signal c = ok ; 28 t1 pthread_mutex_unlock m = ok ; 29 t3 gift m ; 30 t1 end 0 ; 31 p0 run t3 ; 32 t3 ret = ok ; 33 t3 pthread_mutex_unlock m = ok ; 34 t2 gift m ; 35 t3 done 1 ; 36 t3 pthread_testcancel = ok ; 37 t3 pthread_setcancel CANCEL_ON = 0 ; 38 t3 deliver 1 22 ; 39 t3 bottom 1 -1 ; 40 t3 end -1 ; 41 p0 run t2 ; 42 t2 ret = ok ; 43 t2 pthread_setcancel CANCEL_ON = 0 ; 44 t2 pthread_mutex_unlock m = ok ; 45 t2 deliver 1 15 ; 46 t2 bottom 1 -1 ; 47 t2 end -1 ; 48 p0 run t4 ; 49 t4 ret = ok ; 50 t4 pthread_testcancel = ok ; 51 t4 pthread_setcancel CANCEL_ON = 0 ; 52 t4 deliver 1 22 ; 53 t4 bottom 1 -1 ; 54 t4 end -1 ; stop finished" stops.Finished }
{}

/// A reader that was given its item, a writer whose item entered and a delay whose time has come keep their replies under a cancel, which is pending.
#[tactic(auto, unfolding(crate::specs::Words::history_words))]
pub fn replies_kept_under_cancels()
    ensures { RunsAlone scripts.replies_kept_under_cancels "1 p0 run t1 ; 2 t1 write q 1 = ok ; 3 t1 pthread_create default reads 0 = 2 ; 4 t1 pthread_create default writes 6 = 3 ; 5 t1 pthread_create default sleeps 7 = 4 ; 6 t1 pthread_delay_np 3 = blocks ; 7 p0 run t2 ; 8 t2 read p = blocks ; 9 p0 run t3 ; 10 t3 write q 6 = blocks ; 11 p0 run t4 ; 12 t4 pthread_delay_np 3 = blocks ; 13 clock 3 ; 14 p0 run t1 ; 15 t1 ret = ok ; 16 t1 write p 5 = ok ; 17 t1 pthread_cancel 2 = pending ; 18 t1 read q = 1 ; 19 t1 pthread_cancel 3 = pending ; 20 t1 pthread_cancel 4 = pending ; 21 t1 pthread_cancel 4 = merged ; 22 t1 read q = 6 ; 23 p0 run t4 ; 24 t4 ret = ok ; 25 t4 say 7 ; 26 t4 deliver 1 7 ; 27 t4 bottom 1 -1 ; 28 t4 end -1 ; 29 p0 run t2 ; 30 t2 ret = 5 ; 31 t2 say 5 ; 32 t2 deliver 1 13 ; 33 t2 bottom 1 -1 ; 34 t2 end -1 ; 35 p0 run t3 ; 36 t3 ret = ok ; 37 t3 say 6 ; 38 t3 end 0 ; 39 p0 run t1 ; 40 t1 end 0 ; stop finished" stops.Finished }
{}

/// A once routine is cancelled twice and unwound while nobody waits for its block; the next caller runs it, the first waits for it, and a caller after its end goes on.
#[tactic(auto, unfolding(crate::specs::Words::history_words))]
pub fn once_run_again()
    ensures { RunsAlone scripts.once_run_again "1 p0 run t1 ; 2 t1 pthread_create default w 0 = 2 ; 3 t1 pthread_yield = ok ; 4 p0 run t2 ; 5 t2 try 1 7 ; 6 t2 pthread_once o init = ok ; 7 t2 once 2 o ; 8 t2 pthread_delay_np 4 = blocks ; 9 p0 run t1 ; 10 t1 pthread_cancel 2 = wakes ; 11 t1 pthread_cancel 2 = merged ; 12 t1 pthread_yield = ok ; 13 p0 run t2 ; 14 t2 deliver 1 4 ; 15 t2 undone 2 1 ; 16 t2 catch 1 1 9 ; 17 t2 pthread_yield = ok ; 18 p0 run t1 ; 19 t1 pthread_once o init = ok ; 20 t1 once 1 o ; 21 t1 pthread_delay_np 4 = blocks ; 22 p0 run t2 ; 23 t2 pthread_once o init = blocks ; 24 clock 4 ; 25 p0 run t1 ; 26 t1 ret = ok ; 27 t1 done 1 ; 28 t1 pthread_once o init = ok ; 29 t1 end 0 ; 30 p0 run t2 ; 31 t2 ret = ok ; 32 t2 endcatch 1 ; 33 t2 end 0 ; stop finished" stops.Finished }
{}

/// A canceller that wakes a thread of greater rank gives up its processor, behind one of its own rank that it woke before.
#[tactic(auto, unfolding(crate::specs::Words::history_words))]
pub fn wakes_by_rank()
    ensures { RunsAlone scripts.wakes_by_rank "1 p0 run t1 ; 2 t1 pthread_create default sleeps 0 = 2 ; 3 t1 pthread_create default sleeps 0 = 3 ; 4 t1 pthread_yield = ok ; 5 p0 run t2 ; 6 t2 pthread_delay_np 9 = blocks ; 7 p0 run t3 ; 8 t3 pthread_delay_np 9 = blocks ; 9 p0 run t1 ; 10 t1 pthread_setprio 3 20 = 16 ; 11 t1 pthread_cancel 2 = wakes ; 12 t1 pthread_cancel 3 = wakes ; 13 p0 run t3 ; 14 t3 deliver 1 3 ; 15 t3 bottom 1 -1 ; 16 t3 end -1 ; 17 p0 run t2 ; 18 t2 deliver 1 3 ; 19 t2 bottom 1 -1 ; 20 t2 end -1 ; 21 p0 run t1 ; 22 t1 say 1 ; 23 t1 end 0 ; stop finished" stops.Finished }
{}

/// A cancelled wait is not delivered before it has its mutex: where the owner ends without an unlock, the run ends in a deadlock.
#[tactic(auto, unfolding(crate::specs::Words::history_words))]
pub fn cancelled_wait_without_mutex()
    ensures { RunsAlone scripts.cancelled_wait_without_mutex "1 p0 run t1 ; 2 t1 pthread_mutex_init m default = ok ; 3 t1 pthread_cond_init c = ok ; 4 t1 pthread_create default waits 0 = 2 ; 5 t1 pthread_yield = ok ; 6 p0 run t2 ; 7 t2 pthread_mutex_lock m = ok ; 8 t2 pthread_cond_wait c m = blocks ; 9 p0 run t1 ; 10 t1 pthread_mutex_lock m = ok ; 11 t1 pthread_cancel 2 = wakes ; 12 t1 pthread_cancel 2 = merged ; 13 t1 end 0 ; stop deadlock 1 t2" (stops.Deadlock 1 (record { 0 = 2 })) }
{}

/// A waiter that was handed a once block is cancelled before it runs: its reply and its once line come first, then the delivery, and the block is handed on again.
#[tactic(auto, unfolding(crate::specs::Words::history_words))]
pub fn once_handed_on_twice()
    ensures { RunsAlone scripts.once_handed_on_twice "1 p0 run t1 ; 2 t1 pthread_create default first 0 = 2 ; 3 t1 pthread_create default second 0 = 3 ; 4 t1 pthread_yield = ok ; 5 p0 run t2 ; 6 t2 try 1 7 ; 7 t2 pthread_once o init = ok ; 8 t2 once 2 o ; 9 t2 pthread_delay_np 10 = blocks ; 10 p0 run t3 ; 11 t3 pthread_setasynccancel CANCEL_ON = 0 ; 12 t3 pthread_once o init = blocks ; 13 p0 run t1 ; 14 t1 pthread_cancel 2 = wakes ; 15 t1 pthread_once o init = blocks ; 16 p0 run t2 ; 17 t2 deliver 1 4 ; 18 t2 undone 2 1 ; 19 t2 catch 1 1 9 ; 20 t2 pthread_cancel 3 = pending ; 21 t2 pthread_cancel 3 = merged ; 22 t2 endcatch 1 ; 23 t2 end 0 ; 24 p0 run t3 ; 25 t3 ret = ok ; 26 t3 once 1 o ; 27 t3 deliver 1 4 ; 28 t3 undone 1 1 ; 29 t3 bottom 1 -1 ; 30 t3 end -1 ; 31 p0 run t1 ; 32 t1 ret = ok ; 33 t1 once 1 o ; 34 t1 pthread_delay_np 10 = blocks ; 35 clock 10 ; 36 p0 run t1 ; 37 t1 ret = ok ; 38 t1 done 1 ; 39 t1 end 0 ; stop finished" stops.Finished }
{}

/// The end of a once routine makes its waiters ready best first, and the order stays when their ranks are equal then.
#[tactic(auto, unfolding(crate::specs::Words::history_words))]
pub fn once_wakes_best_first()
    ensures { RunsAlone scripts.once_wakes_best_first "1 p0 run t1 ; 2 t1 pthread_create default onces 2 = 2 ; 3 t1 pthread_create default onces 3 = 3 ; 4 t1 pthread_once o init = ok ; 5 t1 once 1 o ; 6 t1 pthread_yield = ok ; 7 p0 run t2 ; 8 t2 pthread_once o init = blocks ; 9 p0 run t3 ; 10 t3 pthread_once o init = blocks ; 11 p0 run t1 ; 12 t1 pthread_setprio 2 10 = 16 ; 13 t1 pthread_setprio 3 12 = 16 ; 14 t1 done 1 ; 15 t1 pthread_setprio 2 16 = 10 ; 16 t1 pthread_setprio 3 16 = 12 ; 17 t1 end 0 ; 18 p0 run t3 ; 19 t3 ret = ok ; 20 t3 say 3 ; 21 t3 end 0 ; 22 p0 run t2 ; 23 t2 ret = ok ; 24 t2 say 2 ; 25 t2 end 0 ; stop finished" stops.Finished }
{}

/// A close makes the waiting readers ready best first, and the order stays when their ranks are equal then.
#[tactic(auto, unfolding(crate::specs::Words::history_words))]
pub fn close_wakes_best_first()
    ensures { RunsAlone scripts.close_wakes_best_first "1 p0 run t1 ; 2 t1 pthread_create default reads 2 = 2 ; 3 t1 pthread_create default reads 3 = 3 ; 4 t1 pthread_yield = ok ; 5 p0 run t2 ; 6 t2 read p = blocks ; 7 p0 run t3 ; 8 t3 read p = blocks ; 9 p0 run t1 ; 10 t1 pthread_setprio 2 10 = 16 ; 11 t1 pthread_setprio 3 12 = 16 ; 12 t1 close p = ok ; 13 t1 pthread_setprio 2 16 = 10 ; 14 t1 pthread_setprio 3 16 = 12 ; 15 t1 end 0 ; 16 p0 run t3 ; 17 t3 ret = eof ; 18 t3 say 3 ; 19 t3 end 0 ; 20 p0 run t2 ; 21 t2 ret = eof ; 22 t2 say 2 ; 23 t2 end 0 ; stop finished" stops.Finished }
{}

/// The end of a once routine is no point, and a pending cancel is delivered at a join before the join is refused.
#[tactic(auto, unfolding(crate::specs::Words::history_words))]
pub fn once_end_is_no_point()
    ensures { RunsAlone scripts.once_end_is_no_point "1 p0 run t1 ; 2 t1 pthread_once o init = ok ; 3 t1 once 1 o ; 4 t1 pthread_cancel 1 = pending ; 5 t1 done 1 ; 6 t1 pthread_yield = ok ; 7 p0 run t1 ; 8 t1 deliver 1 9 ; 9 t1 bottom 1 -1 ; 10 t1 end -1 ; stop finished" stops.Finished }
{}

/// A joiner whose target has ended keeps the value under a cancel, which is delivered at its next join though that has its value at once.
#[tactic(auto, unfolding(crate::specs::Words::history_words))]
pub fn join_kept_under_cancel()
    ensures { RunsAlone scripts.join_kept_under_cancel "1 p0 run t1 ; 2 t1 pthread_create default joins 0 = 2 ; 3 t1 pthread_create default ends 0 = 3 ; 4 t1 pthread_yield = ok ; 5 p0 run t2 ; 6 t2 pthread_join 3 = blocks ; 7 p0 run t3 ; 8 t3 end 7 ; 9 p0 run t1 ; 10 t1 pthread_cancel 2 = pending ; 11 t1 end 0 ; 12 p0 run t2 ; 13 t2 ret = 7 ; 14 t2 say 7 ; 15 t2 deliver 1 8 ; 16 t2 bottom 1 -1 ; 17 t2 end -1 ; stop finished" stops.Finished }
{}

/// With general cancelability off a wait for the global lock goes on under a cancel, a second cancel merges, and the lock is given on when its owner has unlocked as often as it locked.
#[tactic(auto, unfolding(crate::specs::Words::history_words))]
pub fn global_lock_with_cancelability_off()
    ensures { RunsAlone scripts.global_lock_with_cancelability_off "1 p0 run t1 ; 2 t1 pthread_lock_global_np = ok ; 3 t1 pthread_lock_global_np = ok ; 4 t1 pthread_create default locks 0 = 2 ; 5 t1 pthread_yield = ok ; 6 p0 run t2 ; 7 t2 pthread_setcancel CANCEL_OFF = 1 ; 8 t2 pthread_lock_global_np = blocks ; 9 p0 run t1 ; 10 t1 pthread_cancel 2 = pending ; 11 t1 pthread_cancel 2 = merged ; 12 t1 pthread_unlock_global_np = ok ; 13 t1 pthread_unlock_global_np = ok ; 14 t2 gift global ; 15 t1 end 0 ; 16 p0 run t2 ; 17 t2 ret = ok ; 18 t2 pthread_testcancel = ok ; 19 t2 pthread_setcancel CANCEL_ON = 0 ; 20 t2 pthread_unlock_global_np = ok ; 21 t2 deliver 1 8 ; 22 t2 bottom 1 -1 ; 23 t2 end -1 ; stop finished" stops.Finished }
{}

/// A second cancel of a thread that waits for a mutex, or as a reader or a writer with general cancelability off, merges with the
/// first.
#[tactic(auto, unfolding(crate::specs::Words::history_words))]
pub fn cancels_merge_at_waits()
    ensures { RunsAlone scripts.cancels_merge_at_waits "1 p0 run t1 ; 2 t1 pthread_mutex_init m default = ok ; 3 t1 pthread_mutex_lock m = ok ; 4 t1 write q 1 = ok ; 5 t1 pthread_create default l 0 = 2 ; 6 t1 pthread_create default r 0 = 3 ; 7 t1 pthread_create default w 0 = 4 ; 8 t1 pthread_yield = ok ; 9 p0 run t2 ; 10 t2 pthread_mutex_lock m = blocks ; 11 p0 run t3 ; 12 t3 pthread_setcancel CANCEL_OFF = 1 ; 13 t3 read p = blocks ; 14 p0 run t4 ; 15 t4 pthread_setcancel CANCEL_OFF = 1 ; 16 t4 write q 2 = blocks ; 17 p0 run t1 ; 18 t1 pthread_cancel 2 = pending ; 19 t1 pthread_cancel 2 = merged ; 20 t1 pthread_cancel 3 = pending ; 21 t1 pthread_cancel 3 = merged ; 22 t1 pthread_cancel 4 = pending ; 23 t1 pthread_cancel 4 = merged ; 24 t1 end 0 ; stop deadlock 3 t2" (stops.Deadlock 3 (record { 0 = 2 })) }
{}
