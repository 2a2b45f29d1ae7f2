//! Worked histories of joins and detached threads.

ghost use Rattle.thr_values.specs.declared.event.Stop.TheVariants as stops;
ghost use Rattle.thr_histories.specs.Runs.{RunsAlone};
ghost use Rattle.thr_histories_turns.specs.MachineScripts as scripts;

/// A thread that is detached while it runs is reclaimed at its end, one that has ended at its detach; numbers aren't used again. The errors of join and detach come in their order: a thread that joins itself gets EDEADLK though it is detached.
#[tactic(auto, unfolding(crate::specs::Words::history_words))]
pub fn detached_threads()
    ensures { RunsAlone scripts.detached_threads "1 p0 run t1 ; 2 t1 pthread_create default w 20 = 2 ; 3 t1 pthread_create default w 30 = 3 ; 4 t1 pthread_detach 2 = ok ; 5 t1 pthread_detach 2 = EINVAL ; 6 t1 pthread_join 2 = EINVAL ; 7 t1 pthread_join 1 = EDEADLK ; 8 t1 pthread_detach 9 = ESRCH ; 9 t1 pthread_yield = ok ; 10 p0 run t2 ; 11 t2 end 20 ; 12 p0 run t3 ; 13 t3 end 30 ; 14 p0 run t1 ; 15 t1 pthread_join 2 = ESRCH ; 16 t1 pthread_detach 3 = ok ; 17 t1 pthread_join 3 = ESRCH ; 18 t1 pthread_create default w 40 = 4 ; 19 t1 say 4 ; 20 t1 pthread_detach 1 = ok ; 21 t1 pthread_join 1 = EDEADLK ; 22 t1 end 0 ; 23 p0 run t4 ; 24 t4 end 40 ; stop finished" stops.Finished }
{}

/// A joiner that waits gets the value though its target is detached meanwhile; the record is reclaimed at the end, so a second join gets ESRCH.
#[tactic(auto, unfolding(crate::specs::Words::history_words))]
pub fn detached_while_joined()
    ensures { RunsAlone scripts.detached_while_joined "1 p0 run t1 ; 2 t1 pthread_create default target 0 = 2 ; 3 t1 pthread_create default joiner 2 = 3 ; 4 t1 pthread_yield = ok ; 5 p0 run t2 ; 6 t2 pthread_yield = ok ; 7 p0 run t3 ; 8 t3 pthread_join 2 = blocks ; 9 p0 run t1 ; 10 t1 pthread_detach 2 = ok ; 11 t1 pthread_join 2 = EINVAL ; 12 t1 end 0 ; 13 p0 run t2 ; 14 t2 end 7 ; 15 p0 run t3 ; 16 t3 ret = 7 ; 17 t3 say 7 ; 18 t3 pthread_join 2 = ESRCH ; 19 t3 say 3 ; 20 t3 end 0 ; stop finished" stops.Finished }
{}

/// The joiners of one thread become ready in the order of their ranks at its end, and among equals in the order of their waits: one that was raised while it waited stays before the others after it is lowered again.
#[tactic(auto, unfolding(crate::specs::Words::history_words))]
pub fn joiners_by_rank()
    ensures { RunsAlone scripts.joiners_by_rank "1 p0 run t1 ; 2 t1 pthread_create default target 0 = 2 ; 3 t1 pthread_setprio 2 1 = 16 ; 4 t1 pthread_create default joiner 0 = 3 ; 5 t1 pthread_create default joiner 0 = 4 ; 6 t1 pthread_create default joiner 0 = 5 ; 7 t1 pthread_yield = ok ; 8 p0 run t3 ; 9 t3 pthread_join 2 = blocks ; 10 p0 run t4 ; 11 t4 pthread_join 2 = blocks ; 12 p0 run t5 ; 13 t5 pthread_join 2 = blocks ; 14 p0 run t1 ; 15 t1 pthread_setprio 5 20 = 16 ; 16 t1 pthread_setprio 1 31 = 16 ; 17 t1 pthread_join 2 = blocks ; 18 p0 run t2 ; 19 t2 end 7 ; 20 p0 run t1 ; 21 t1 ret = 7 ; 22 t1 pthread_setprio 5 16 = 20 ; 23 t1 end 0 ; 24 p0 run t5 ; 25 t5 ret = 7 ; 26 t5 say 12 ; 27 t5 end 0 ; 28 p0 run t3 ; 29 t3 ret = 7 ; 30 t3 say 10 ; 31 t3 end 0 ; 32 p0 run t4 ; 33 t4 ret = 7 ; 34 t4 say 11 ; 35 t4 end 0 ; stop finished" stops.Finished }
{}

/// A change of priority or policy of an ended thread whose record stands answers the old value and changes the record; once the thread is detached its record is gone, and ESRCH comes before EINVAL.
#[tactic(auto, unfolding(crate::specs::Words::history_words))]
pub fn ended_thread_changed()
    ensures { RunsAlone scripts.ended_thread_changed "1 p0 run t1 ; 2 t1 pthread_create default w 0 = 2 ; 3 t1 pthread_yield = ok ; 4 p0 run t2 ; 5 t2 end 0 ; 6 p0 run t1 ; 7 t1 pthread_setprio 2 20 = 16 ; 8 t1 pthread_getprio 2 = 20 ; 9 t1 pthread_setscheduler 2 SCHED_RR 5 = 2 ; 10 t1 pthread_getscheduler 2 = 1 ; 11 t1 say 1 ; 12 t1 pthread_setprio 2 -1 = EINVAL ; 13 t1 pthread_setscheduler 2 SCHED_FIFO 32 = EINVAL ; 14 t1 pthread_detach 2 = ok ; 15 t1 pthread_setscheduler 2 SCHED_FIFO 32 = ESRCH ; 16 t1 pthread_getprio 2 = ESRCH ; 17 t1 say 1 ; 18 t1 end 0 ; stop finished" stops.Finished }
{}

/// Joiners are woken by the rank with which they wait, also where nobody changes it meanwhile; the arrivals that they take then
/// count when they are of equal rank.
#[tactic(auto, unfolding(crate::specs::Words::history_words))]
pub fn joiners_keep_their_ranks()
    ensures { RunsAlone scripts.joiners_keep_their_ranks "1 p0 run t1 ; 2 t1 pthread_create default e 0 = 2 ; 3 t1 pthread_create default w 0 = 3 ; 4 t1 pthread_yield = ok ; 5 p0 run t2 ; 6 t2 pthread_delay_np 5 = blocks ; 7 p0 run t3 ; 8 t3 pthread_join 2 = blocks ; 9 p0 run t1 ; 10 t1 pthread_attr_create f = ok ; 11 t1 pthread_attr_setinheritsched f PTHREAD_DEFAULT_SCHED = ok ; 12 t1 pthread_attr_setprio f 20 = ok ; 13 t1 pthread_create f w 0 = 4 ; 14 p0 run t4 ; 15 t4 pthread_join 2 = blocks ; 16 p0 run t1 ; 17 t1 pthread_setprio 1 31 = 16 ; 18 t1 pthread_join 2 = blocks ; 19 clock 5 ; 20 p0 run t2 ; 21 t2 ret = ok ; 22 t2 end 0 ; 23 p0 run t1 ; 24 t1 ret = 0 ; 25 t1 pthread_setprio 4 16 = 20 ; 26 t1 end 0 ; 27 p0 run t4 ; 28 t4 ret = 0 ; 29 t4 say 4 ; 30 t4 end 0 ; 31 p0 run t3 ; 32 t3 ret = 0 ; 33 t3 say 3 ; 34 t3 end 0 ; stop finished" stops.Finished }
{}
