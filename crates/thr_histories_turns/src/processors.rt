//! Worked histories of several processors, by events that are chosen.

ghost use Rattle.thr_values.specs.declared.event.Stop.TheVariants as stops;
ghost use Rattle.thr_histories.specs.Runs.{RunsBy};
ghost use Rattle.thr_histories_turns.specs.MachineScripts as scripts;

/// Turns of two processors stand between one another; a mutex goes over from one to the other and back, and a processor is given to the thread that has just been given the mutex.
#[tactic(auto, unfolding(crate::specs::Words::history_words))]
pub fn mutex_between_processors()
    ensures { RunsBy scripts.mutex_between_processors 2 scripts.mutex_between_processors_events "1 p0 run t1 ; 2 t1 pthread_mutex_init m default = ok ; 3 t1 pthread_mutex_lock m = ok ; 4 t1 pthread_create default w 4 = 2 ; 5 p1 run t2 ; 6 t2 pthread_mutex_lock m = blocks ; 7 t1 say 1 ; 8 t1 pthread_mutex_unlock m = ok ; 9 t2 gift m ; 10 p1 run t2 ; 11 t1 say 2 ; 12 t2 ret = ok ; 13 t1 pthread_mutex_lock m = blocks ; 14 t2 say 4 ; 15 t2 pthread_mutex_unlock m = ok ; 16 t1 gift m ; 17 p0 run t1 ; 18 t2 end 0 ; 19 t1 ret = ok ; 20 t1 end 0 ; stop finished" stops.Finished }
{}

/// The running thread gives way to a ready thread of greater rank though another processor is free; the clock moves when both processors are idle, and each processor then takes the best of those that are left.
#[tactic(auto, unfolding(crate::specs::Words::history_words))]
pub fn clock_with_idle_processors()
    ensures { RunsBy scripts.clock_with_idle_processors 2 scripts.clock_with_idle_processors_events "1 p1 run t1 ; 2 t1 pthread_create default w 10 = 2 ; 3 t1 pthread_setprio 2 20 = 16 ; 4 p0 run t2 ; 5 p1 run t1 ; 6 t2 pthread_delay_np 10 = blocks ; 7 t1 pthread_delay_np 10 = blocks ; 8 clock 10 ; 9 p1 run t2 ; 10 p0 run t1 ; 11 t1 ret = ok ; 12 t2 ret = ok ; 13 t1 say 1 ; 14 t2 say 10 ; 15 t2 end 0 ; 16 t1 end 0 ; stop finished" stops.Finished }
{}

/// A thread of greater rank that is created while both processors run lesser ones takes the processor whose turn has ended; the thread on the other processor stays.
#[tactic(auto, unfolding(crate::specs::Words::history_words))]
pub fn greater_rank_takes_one_processor()
    ensures { RunsBy scripts.greater_rank_takes_one_processor 2 scripts.greater_rank_takes_one_processor_events "1 p0 run t1 ; 2 t1 pthread_attr_create f = ok ; 3 t1 pthread_attr_setinheritsched f PTHREAD_DEFAULT_SCHED = ok ; 4 t1 pthread_attr_setsched f SCHED_FIFO = ok ; 5 t1 pthread_create default w 0 = 2 ; 6 p1 run t2 ; 7 t2 say 0 ; 8 t1 pthread_create f high 9 = 3 ; 9 p0 run t3 ; 10 t2 say 1 ; 11 t3 say 9 ; 12 t2 say 2 ; 13 t3 end 0 ; 14 p0 run t1 ; 15 t1 say 8 ; 16 t2 say 3 ; 17 t1 end 0 ; 18 t2 end 0 ; stop finished" stops.Finished }
{}

/// While a thread of greater rank is still ready, each turn that ends gives its processor up: the other thread gives way too after its next turn, and the one that gave way first is dispatched first.
#[tactic(auto, unfolding(crate::specs::Words::history_words))]
pub fn greater_rank_frees_two_processors()
    ensures { RunsBy scripts.greater_rank_takes_one_processor 2 scripts.greater_rank_frees_two_processors_events "1 p0 run t1 ; 2 t1 pthread_attr_create f = ok ; 3 t1 pthread_attr_setinheritsched f PTHREAD_DEFAULT_SCHED = ok ; 4 t1 pthread_attr_setsched f SCHED_FIFO = ok ; 5 t1 pthread_create default w 0 = 2 ; 6 p1 run t2 ; 7 t2 say 0 ; 8 t1 pthread_create f high 9 = 3 ; 9 t2 say 1 ; 10 p1 run t3 ; 11 p0 run t1 ; 12 t1 say 8 ; 13 t3 say 9 ; 14 t3 end 0 ; 15 t1 end 0 ; 16 p0 run t2 ; 17 t2 say 2 ; 18 t2 say 3 ; 19 t2 end 0 ; stop finished" stops.Finished }
{}

/// Two threads on two processors wait for ever, one for the other's end and that one for a mutex whose owner has ended; the stop is the deadlock though the limit on lines is reached by the same event.
#[tactic(auto, unfolding(crate::specs::Words::history_words))]
pub fn deadlock_at_the_limit()
    ensures { RunsBy scripts.deadlock_at_the_limit 2 scripts.deadlock_at_the_limit_events "1 p0 run t1 ; 2 t1 pthread_mutex_init m default = ok ; 3 t1 pthread_mutex_lock m = ok ; 4 t1 pthread_create default joins 3 = 2 ; 5 t1 pthread_create default locks 5 = 3 ; 6 p1 run t2 ; 7 t1 end 0 ; 8 p0 run t3 ; 9 t2 pthread_join 3 = blocks ; 10 t3 say 5 ; 11 t3 pthread_mutex_lock m = blocks ; stop deadlock 2 t2" (stops.Deadlock 2 (record { 0 = 2 })) }
{}

/// A history passes its limit inside a turn: the whole turn stands, and then the run stops though a thread runs on the other processor.
#[tactic(auto, unfolding(crate::specs::Words::history_words))]
pub fn limit_passed_in_a_turn()
    ensures { RunsBy scripts.limit_passed_in_a_turn 2 scripts.limit_passed_in_a_turn_events "1 p1 run t1 ; 2 t1 pthread_create default w 3 = 2 ; 3 p0 run t2 ; 4 t2 try 1 5 ; 5 t2 raise 1 p ; 6 t2 catch 1 1 7 ; 7 t2 say 3 ; stop limit" stops.Limit }
{}

/// An exit that reads a shared variable ends its turn, so a turn of another processor stands between it and its FINALLY body; an exit that reads none goes on in its turn. The last of four processors takes a thread.
#[tactic(auto, unfolding(crate::specs::Words::history_words))]
pub fn exits_quiet_and_shared()
    ensures { RunsBy scripts.exits_quiet_and_shared 4 scripts.exits_quiet_and_shared_events "1 p0 run t1 ; 2 t1 pthread_create default w 2 = 2 ; 3 p3 run t2 ; 4 t1 try 1 13 ; 5 t1 exit 1 7 ; 6 t2 try 1 4 ; 7 t2 exit 1 5 ; 8 t2 finally 1 1 ; 9 t2 say 2 ; 10 t1 finally 1 1 ; 11 t1 say 1 ; 12 t2 endfin 1 ; 13 t2 bottom 1 5 ; 14 t2 end 5 ; 15 t1 endfin 1 ; 16 t1 bottom 1 7 ; 17 t1 end 7 ; stop finished" stops.Finished }
{}

/// A fault in a shared statement ends its turn with the `raise` line, so a turn of the other processor stands before its catch body; after a fault in a quiet statement the same turn goes on to the catch body.
#[tactic(auto, unfolding(crate::specs::Words::history_words))]
pub fn faults_quiet_and_shared()
    ensures { RunsBy scripts.faults_quiet_and_shared 2 scripts.faults_quiet_and_shared_events "1 p0 run t1 ; 2 t1 pthread_create default w 2 = 2 ; 3 p1 run t2 ; 4 t1 try 1 12 ; 5 t1 raise 1 intdiv_e ; 6 t2 try 1 3 ; 7 t2 raise 1 intdiv_e ; 8 t2 catch 1 1 5 ; 9 t2 say 2 ; 10 t1 catch 1 1 14 ; 11 t1 say 1 ; 12 t2 endcatch 1 ; 13 t2 end 0 ; 14 t1 endcatch 1 ; 15 t1 end 0 ; stop finished" stops.Finished }
{}

/// A once routine that is unwound ends its turn at `undone`: on the other processor the waiter runs the block with its own routine before the unwinding goes on to its catch body.
#[tactic(auto, unfolding(crate::specs::Words::history_words))]
pub fn once_undone_between_processors()
    ensures { RunsBy scripts.once_undone_between_processors 2 scripts.once_undone_between_processors_events "1 p1 run t1 ; 2 t1 pthread_create default w 0 = 2 ; 3 p0 run t2 ; 4 t1 try 1 17 ; 5 t1 pthread_once o bad = ok ; 6 t1 once 2 o ; 7 t2 pthread_once o good = blocks ; 8 t1 say 1 ; 9 t1 raise 1 p ; 10 t1 undone 2 1 ; 11 p0 run t2 ; 12 t2 ret = ok ; 13 t2 once 1 o ; 14 t1 catch 1 1 19 ; 15 t1 pthread_once o bad = blocks ; 16 t2 say 2 ; 17 t2 done 1 ; 18 p1 run t1 ; 19 t2 end 0 ; 20 t1 ret = ok ; 21 t1 endcatch 1 ; 22 t1 end 0 ; stop finished" stops.Finished }
{}

/// A cancel that comes between the last statement and the end step of a thread with both cancelabilities on isn't delivered before the end step: the destructor is called first, and the cancel is delivered in it. After the end the reply is `ended`.
#[tactic(auto, unfolding(crate::specs::Words::history_words))]
pub fn cancel_before_the_end_step()
    ensures { RunsBy scripts.cancel_before_the_end_step 2 scripts.cancel_before_the_end_step_events "1 p0 run t1 ; 2 t1 pthread_create default w 0 = 2 ; 3 p1 run t2 ; 4 t1 pthread_keycreate k d = ok ; 5 t1 pthread_setspecific k 3 = ok ; 6 t1 pthread_setasynccancel CANCEL_ON = 0 ; 7 t1 pause ; 8 t2 pthread_cancel 1 = pending ; 9 t1 destroy 1 k 3 ; 10 t1 deliver 1 4 ; 11 t1 lost 1 1 ; 12 t1 end 9 ; 13 t2 pthread_cancel 1 = ended ; 14 t2 end 0 ; stop finished" stops.Finished }
{}

/// A thread that runs on another processor and is lowered below a ready one keeps its processor until its own next turn has ended.
#[tactic(auto, unfolding(crate::specs::Words::history_words))]
pub fn lowered_on_another_processor()
    ensures { RunsBy scripts.lowered_on_another_processor 2 scripts.lowered_on_another_processor_events "1 p0 run t1 ; 2 t1 pthread_create default w 20 = 2 ; 3 p1 run t2 ; 4 t1 pthread_create default w 30 = 3 ; 5 t1 pthread_setprio 2 1 = 16 ; 6 t1 say 16 ; 7 t2 say 20 ; 8 p1 run t3 ; 9 t1 end 0 ; 10 t3 say 30 ; 11 p0 run t2 ; 12 t2 say 21 ; 13 t2 end 0 ; 14 t3 say 31 ; 15 t3 end 0 ; stop finished" stops.Finished }
{}

/// A `call` that reads a shared variable and doesn't fit the stack writes its `raise` line alone and ends its turn, so a turn of the other processor stands before the catch body.
#[tactic(auto, unfolding(crate::specs::Words::history_words))]
pub fn overflow_of_shared_call()
    ensures { RunsBy scripts.overflow_of_shared_call 2 scripts.overflow_of_shared_call_events "1 p0 run t1 ; 2 t1 pthread_attr_create a = ok ; 3 t1 pthread_attr_setstacksize a 16 = ok ; 4 t1 pthread_create a down 14 = 2 ; 5 p1 run t2 ; 6 t2 try 1 10 ; 7 t2 raise 1 stackovf_e ; 8 t1 say 1 ; 9 t2 catch 1 1 12 ; 10 t2 say 5 ; 11 t1 say 2 ; 12 t2 endcatch 1 ; 13 t2 end 0 ; 14 t1 end 0 ; stop finished" stops.Finished }
{}

/// The last thread ends in the line that reaches the limit: the stop is `finished`. The first processor stays idle.
#[tactic(auto, unfolding(crate::specs::Words::history_words))]
pub fn finished_at_the_limit()
    ensures { RunsBy scripts.finished_at_the_limit 2 scripts.finished_at_the_limit_events "1 p1 run t1 ; 2 t1 say 7 ; 3 t1 end 0 ; stop finished" stops.Finished }
{}

/// The global lock is locked twice by one thread and given to the other at the second unlock.
#[tactic(auto, unfolding(crate::specs::Words::history_words))]
pub fn global_lock_between_processors()
    ensures { RunsBy scripts.global_lock_between_processors 2 scripts.global_lock_between_processors_events "1 p0 run t1 ; 2 t1 pthread_create default w 4 = 2 ; 3 t1 pthread_lock_global_np = ok ; 4 p1 run t2 ; 5 t2 pthread_lock_global_np = blocks ; 6 t1 pthread_lock_global_np = ok ; 7 t1 say 1 ; 8 t1 pthread_unlock_global_np = ok ; 9 t1 pthread_unlock_global_np = ok ; 10 t2 gift global ; 11 p1 run t2 ; 12 t2 ret = ok ; 13 t1 end 0 ; 14 t2 pthread_lock_global_np = ok ; 15 t2 say 4 ; 16 t2 pthread_unlock_global_np = ok ; 17 t2 pthread_unlock_global_np = ok ; 18 t2 end 0 ; stop finished" stops.Finished }
{}

/// Two threads on two processors each run the once block that the other waits for.
#[tactic(auto, unfolding(crate::specs::Words::history_words))]
pub fn deadlock_of_once_blocks()
    ensures { RunsBy scripts.deadlock_of_once_blocks 2 scripts.deadlock_of_once_blocks_events "1 p0 run t1 ; 2 t1 pthread_create default w 0 = 2 ; 3 p1 run t2 ; 4 t2 pthread_once q second = ok ; 5 t2 once 1 q ; 6 t1 pthread_once o first = ok ; 7 t1 once 1 o ; 8 t1 pthread_once q second = blocks ; 9 t2 pthread_once o first = blocks ; stop deadlock 2 t1" (stops.Deadlock 2 (record { 0 = 1 })) }
{}

/// A thread that yields moves to another of sixteen processors.
#[tactic(auto, unfolding(crate::specs::Words::history_words))]
pub fn yield_to_another_processor()
    ensures { RunsBy scripts.yield_to_another_processor 16 scripts.yield_to_another_processor_events "1 p0 run t1 ; 2 t1 pthread_yield = ok ; 3 p15 run t1 ; 4 t1 say 1 ; 5 t1 end 0 ; stop finished" stops.Finished }
{}
