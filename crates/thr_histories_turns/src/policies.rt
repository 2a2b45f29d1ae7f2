//! Worked histories of policies, ranks, slices and attributes.

ghost use Rattle.thr_values.specs.declared.event.Stop.TheVariants as stops;
ghost use Rattle.thr_histories.specs.Runs.{RunsAlone};
ghost use Rattle.thr_histories_turns.specs.MachineScripts as scripts;

/// A round-robin thread whose slice of 8 turns has run out gives way to a FIFO thread of equal rank, and the FIFO thread keeps its processor for more than 8 turns.
#[tactic(auto, unfolding(crate::specs::Words::history_words))]
pub fn round_robin_beside_fifo()
    ensures { RunsAlone scripts.round_robin_beside_fifo "1 p0 run t1 ; 2 t1 pthread_attr_create a = ok ; 3 t1 pthread_attr_setinheritsched a PTHREAD_DEFAULT_SCHED = ok ; 4 t1 pthread_attr_setsched a SCHED_RR = ok ; 5 t1 pthread_setscheduler 1 SCHED_FIFO 20 = 2 ; 6 t1 pthread_create a loop 9 = 2 ; 7 t1 pthread_attr_setsched a SCHED_FIFO = ok ; 8 t1 pthread_create a loop 9 = 3 ; 9 t1 pthread_setscheduler 1 SCHED_BG_NP 31 = 0 ; 10 p0 run t2 ; 11 t2 say 0 ; 12 t2 say 1 ; 13 t2 say 2 ; 14 t2 say 3 ; 15 t2 say 4 ; 16 t2 say 5 ; 17 t2 say 6 ; 18 t2 say 7 ; 19 p0 run t3 ; 20 t3 say 0 ; 21 t3 say 1 ; 22 t3 say 2 ; 23 t3 say 3 ; 24 t3 say 4 ; 25 t3 say 5 ; 26 t3 say 6 ; 27 t3 say 7 ; 28 t3 say 8 ; 29 t3 end 0 ; 30 p0 run t2 ; 31 t2 say 8 ; 32 t2 end 0 ; 33 p0 run t1 ; 34 t1 end 0 ; stop finished" stops.Finished }
{}

/// A slice that runs out with no thread ready is followed by a new one of 8 turns, within which an equal thread that was created meanwhile waits.
#[tactic(auto, unfolding(crate::specs::Words::history_words))]
pub fn slice_renewed()
    ensures { RunsAlone scripts.slice_renewed "1 p0 run t1 ; 2 t1 say 0 ; 3 t1 say 1 ; 4 t1 say 2 ; 5 t1 say 3 ; 6 t1 say 4 ; 7 t1 say 5 ; 8 t1 say 6 ; 9 t1 say 7 ; 10 t1 say 8 ; 11 t1 pthread_create default w 50 = 2 ; 12 t1 say 9 ; 13 t1 say 10 ; 14 t1 say 11 ; 15 t1 say 12 ; 16 t1 say 13 ; 17 t1 say 14 ; 18 p0 run t2 ; 19 t2 say 50 ; 20 t2 end 0 ; 21 p0 run t1 ; 22 t1 say 15 ; 23 t1 say 16 ; 24 t1 say 17 ; 25 t1 end 0 ; stop finished" stops.Finished }
{}

/// A FIFO thread that is put back by a thread of greater rank takes a new arrival, so an equal thread that was ready before runs first.
#[tactic(auto, unfolding(crate::specs::Words::history_words))]
pub fn fifo_put_back()
    ensures { RunsAlone scripts.fifo_put_back "1 p0 run t1 ; 2 t1 pthread_attr_create f = ok ; 3 t1 pthread_attr_setinheritsched f PTHREAD_DEFAULT_SCHED = ok ; 4 t1 pthread_attr_setsched f SCHED_FIFO = ok ; 5 t1 pthread_attr_setprio f 10 = ok ; 6 t1 pthread_setscheduler 1 SCHED_FIFO 20 = 2 ; 7 t1 pthread_create f low 2 = 2 ; 8 t1 pthread_create f low 3 = 3 ; 9 t1 pthread_setprio 1 5 = 20 ; 10 p0 run t2 ; 11 t2 pthread_attr_setprio f 15 = ok ; 12 t2 pthread_create f high 4 = 4 ; 13 p0 run t4 ; 14 t4 say 4 ; 15 t4 end 0 ; 16 p0 run t3 ; 17 t3 say 3 ; 18 t3 end 0 ; 19 p0 run t2 ; 20 t2 say 2 ; 21 t2 end 0 ; 22 p0 run t1 ; 23 t1 say 20 ; 24 t1 end 0 ; stop finished" stops.Finished }
{}

/// Turns that end under SCHED_FIFO take nothing from the slice, and the policy after the turn is the one that counts: what was left of the slice is used up after the thread has gone back to SCHED_BG_NP.
#[tactic(auto, unfolding(crate::specs::Words::history_words))]
pub fn slice_kept_under_fifo()
    ensures { RunsAlone scripts.slice_kept_under_fifo "1 p0 run t1 ; 2 t1 pthread_setscheduler 1 SCHED_BG_NP 16 = 2 ; 3 t1 pthread_create default w 50 = 2 ; 4 t1 pthread_setscheduler 1 SCHED_FIFO 0 = 3 ; 5 t1 say 1 ; 6 t1 say 2 ; 7 t1 say 3 ; 8 t1 pthread_setscheduler 1 SCHED_BG_NP 16 = 0 ; 9 t1 say 4 ; 10 t1 say 5 ; 11 t1 say 6 ; 12 t1 say 7 ; 13 t1 say 8 ; 14 p0 run t2 ; 15 t2 say 50 ; 16 t2 end 0 ; 17 p0 run t1 ; 18 t1 say 9 ; 19 t1 say 10 ; 20 t1 say 11 ; 21 t1 say 12 ; 22 t1 end 0 ; stop finished" stops.Finished }
{}

/// A change of rank of a ready thread takes effect at once and leaves its arrival: lowered and raised again it is still the first of its equals. Equals that yield run in turn, and a ready thread that is raised above the running one takes the processor.
#[tactic(auto, unfolding(crate::specs::Words::history_words))]
pub fn ranks_changed()
    ensures { RunsAlone scripts.ranks_changed "1 p0 run t1 ; 2 t1 pthread_create default w 20 = 2 ; 3 t1 pthread_create default w 30 = 3 ; 4 t1 pthread_setprio 2 3 = 16 ; 5 t1 pthread_setprio 2 16 = 3 ; 6 t1 pthread_yield = ok ; 7 p0 run t2 ; 8 t2 say 20 ; 9 t2 pthread_yield = ok ; 10 p0 run t3 ; 11 t3 say 30 ; 12 t3 pthread_yield = ok ; 13 p0 run t1 ; 14 t1 say 3 ; 15 t1 pthread_setprio 3 17 = 16 ; 16 p0 run t3 ; 17 t3 say 30 ; 18 t3 end 0 ; 19 p0 run t2 ; 20 t2 say 20 ; 21 t2 end 0 ; 22 p0 run t1 ; 23 t1 say 16 ; 24 t1 pthread_setprio 1 1 = 16 ; 25 t1 say 16 ; 26 t1 end 0 ; stop finished" stops.Finished }
{}

/// A thread that yields while only lesser ones are ready is dispatched again, and this dispatch gives it a whole slice.
#[tactic(auto, unfolding(crate::specs::Words::history_words))]
pub fn yield_renews_slice()
    ensures { RunsAlone scripts.yield_renews_slice "1 p0 run t1 ; 2 t1 pthread_create default w 50 = 2 ; 3 t1 pthread_setprio 2 1 = 16 ; 4 t1 pthread_yield = ok ; 5 p0 run t1 ; 6 t1 pthread_setprio 2 16 = 1 ; 7 t1 say 0 ; 8 t1 say 1 ; 9 t1 say 2 ; 10 t1 say 3 ; 11 t1 say 4 ; 12 t1 say 5 ; 13 t1 say 6 ; 14 p0 run t2 ; 15 t2 say 50 ; 16 t2 end 0 ; 17 p0 run t1 ; 18 t1 say 7 ; 19 t1 say 8 ; 20 t1 end 0 ; stop finished" stops.Finished }
{}

/// The turn in which the slice runs out hands an item to an equal thread: the woken thread takes its arrival before the caller becomes ready, and runs first.
#[tactic(auto, unfolding(crate::specs::Words::history_words))]
pub fn woken_before_the_caller()
    ensures { RunsAlone scripts.woken_before_the_caller "1 p0 run t1 ; 2 t1 pthread_create default r 0 = 2 ; 3 t1 pthread_yield = ok ; 4 p0 run t2 ; 5 t2 read p = blocks ; 6 p0 run t1 ; 7 t1 say 0 ; 8 t1 say 1 ; 9 t1 say 2 ; 10 t1 say 3 ; 11 t1 say 4 ; 12 t1 say 5 ; 13 t1 say 6 ; 14 t1 write p 9 = ok ; 15 p0 run t2 ; 16 t2 ret = 9 ; 17 t2 say 1 ; 18 t2 end 0 ; 19 p0 run t1 ; 20 t1 say 50 ; 21 t1 end 0 ; stop finished" stops.Finished }
{}

/// A new thread has its maker's policy and priority where the cell says to inherit, which it does as created, and the cell's own otherwise. A cell that isn't made, or a priority outside 0 to 31, is EINVAL.
#[tactic(auto, unfolding(crate::specs::Words::history_words))]
pub fn attributes_of_new_threads()
    ensures { RunsAlone scripts.attributes_of_new_threads "1 p0 run t1 ; 2 t1 pthread_attr_setprio a 3 = EINVAL ; 3 t1 pthread_create a w 0 = EINVAL ; 4 t1 pthread_attr_create a = ok ; 5 t1 pthread_attr_create a = EBUSY ; 6 t1 pthread_attr_setprio a 32 = EINVAL ; 7 t1 pthread_attr_setprio a 3 = ok ; 8 t1 pthread_attr_setsched a SCHED_RR = ok ; 9 t1 pthread_setscheduler 1 SCHED_FIFO 9 = 2 ; 10 t1 pthread_create a w 0 = 2 ; 11 t1 pthread_getprio 2 = 9 ; 12 t1 pthread_getscheduler 2 = 0 ; 13 t1 pthread_attr_setinheritsched a PTHREAD_DEFAULT_SCHED = ok ; 14 t1 pthread_create a w 0 = 3 ; 15 t1 pthread_getprio 3 = 3 ; 16 t1 pthread_getscheduler 3 = 1 ; 17 t1 pthread_attr_delete a = ok ; 18 t1 pthread_attr_create a = ok ; 19 t1 pthread_create a w 0 = 4 ; 20 t1 pthread_getscheduler 4 = 0 ; 21 t1 pthread_create default w 0 = 5 ; 22 t1 pthread_getprio 5 = 9 ; 23 t1 end 0 ; 24 p0 run t2 ; 25 t2 end 0 ; 26 p0 run t4 ; 27 t4 end 0 ; 28 p0 run t5 ; 29 t5 end 0 ; 30 p0 run t3 ; 31 t3 end 0 ; stop finished" stops.Finished }
{}

/// A mutex that becomes free is given to the waiter of greatest rank, though another has waited longer; the receiver takes the processor where its rank is greater, and waits its turn where it is equal. The former owner, which locks again, waits.
#[tactic(auto, unfolding(crate::specs::Words::history_words))]
pub fn mutex_to_best_waiter()
    ensures { RunsAlone scripts.mutex_to_best_waiter "1 p0 run t1 ; 2 t1 pthread_mutex_init m default = ok ; 3 t1 pthread_mutex_lock m = ok ; 4 t1 pthread_create default w 20 = 2 ; 5 t1 pthread_create default w 30 = 3 ; 6 t1 pthread_yield = ok ; 7 p0 run t2 ; 8 t2 pthread_mutex_lock m = blocks ; 9 p0 run t3 ; 10 t3 pthread_mutex_lock m = blocks ; 11 p0 run t1 ; 12 t1 pthread_setprio 3 20 = 16 ; 13 t1 pthread_mutex_unlock m = ok ; 14 t3 gift m ; 15 p0 run t3 ; 16 t3 ret = ok ; 17 t3 say 30 ; 18 t3 pthread_mutex_unlock m = ok ; 19 t2 gift m ; 20 t3 end 0 ; 21 p0 run t1 ; 22 t1 pthread_mutex_lock m = blocks ; 23 p0 run t2 ; 24 t2 ret = ok ; 25 t2 say 20 ; 26 t2 pthread_mutex_unlock m = ok ; 27 t1 gift m ; 28 t2 end 0 ; 29 p0 run t1 ; 30 t1 ret = ok ; 31 t1 say 16 ; 32 t1 end 0 ; stop finished" stops.Finished }
{}

/// A slice that runs out while only a lesser thread is ready is followed by a new one; the thread that is made equal meanwhile waits for its end.
#[tactic(auto, unfolding(crate::specs::Words::history_words))]
pub fn slice_beside_a_lesser_thread()
    ensures { RunsAlone scripts.slice_beside_a_lesser_thread "1 p0 run t1 ; 2 t1 pthread_create default w 50 = 2 ; 3 t1 pthread_setprio 2 15 = 16 ; 4 t1 say 0 ; 5 t1 say 1 ; 6 t1 say 2 ; 7 t1 say 3 ; 8 t1 say 4 ; 9 t1 say 5 ; 10 t1 say 6 ; 11 t1 say 7 ; 12 t1 pthread_setprio 2 16 = 15 ; 13 t1 say 8 ; 14 t1 say 9 ; 15 t1 say 10 ; 16 t1 say 11 ; 17 t1 say 12 ; 18 p0 run t2 ; 19 t2 say 50 ; 20 t2 end 0 ; 21 p0 run t1 ; 22 t1 say 13 ; 23 t1 say 14 ; 24 t1 say 15 ; 25 t1 end 0 ; stop finished" stops.Finished }
{}

/// A ready thread that is made a FIFO thread of any priority takes the processor of a foreground thread at once; a running thread that is put into the background gives way to it.
#[tactic(auto, unfolding(crate::specs::Words::history_words))]
pub fn policies_changed()
    ensures { RunsAlone scripts.policies_changed "1 p0 run t1 ; 2 t1 pthread_create default w 50 = 2 ; 3 t1 pthread_setscheduler 2 SCHED_FIFO 0 = 2 ; 4 p0 run t2 ; 5 t2 say 50 ; 6 t2 pthread_setscheduler 1 SCHED_RR 1 = 2 ; 7 p0 run t1 ; 8 t1 say 2 ; 9 t1 pthread_setscheduler 1 SCHED_BG_NP 0 = 1 ; 10 p0 run t2 ; 11 t2 say 2 ; 12 t2 end 0 ; 13 p0 run t1 ; 14 t1 say 1 ; 15 t1 end 0 ; stop finished" stops.Finished }
{}

/// FIFO threads of one rank give way to one another where they yield, each behind those that were ready before.
#[tactic(auto, unfolding(crate::specs::Words::history_words))]
pub fn fifo_yields()
    ensures { RunsAlone scripts.fifo_yields "1 p0 run t1 ; 2 t1 pthread_setscheduler 1 SCHED_FIFO 3 = 2 ; 3 t1 pthread_create default w 20 = 2 ; 4 t1 pthread_create default w 30 = 3 ; 5 t1 say 3 ; 6 t1 pthread_yield = ok ; 7 p0 run t2 ; 8 t2 say 20 ; 9 t2 pthread_yield = ok ; 10 p0 run t3 ; 11 t3 say 30 ; 12 t3 pthread_yield = ok ; 13 p0 run t1 ; 14 t1 say 1 ; 15 t1 end 0 ; 16 p0 run t2 ; 17 t2 say 20 ; 18 t2 end 0 ; 19 p0 run t3 ; 20 t3 say 30 ; 21 t3 end 0 ; stop finished" stops.Finished }
{}
