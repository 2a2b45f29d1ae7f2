//! Worked histories of asynchronous cancels and of pauses.

ghost use Rattle.thr_values.specs.declared.event.Stop.TheVariants as stops;
ghost use Rattle.thr_histories.specs.Runs.{RunsAlone, RunsBy};
ghost use Rattle.thr_histories_waits.specs.WaitScripts as scripts;

/// With both cancelabilities on each quiet step ends its turn with a pause, also one with a line of its own, and an unwinding goes outward in the next turn; shared steps, with a fault too, have none.
#[tactic(auto, unfolding(crate::specs::Words::history_words))]
pub fn pauses()
    ensures { RunsAlone scripts.pauses "1 p0 run t1 ; 2 t1 pthread_setasynccancel CANCEL_ON = 0 ; 3 t1 try 1 8 ; 4 t1 pause ; 5 t1 pause ; 6 t1 pause ; 7 t1 say 3 ; 8 t1 try 2 11 ; 9 t1 pause ; 10 t1 raise 1 e ; 11 t1 pause ; 12 t1 finally 2 1 ; 13 t1 pause ; 14 t1 endfin 2 ; 15 t1 pause ; 16 t1 catch 1 1 16 ; 17 t1 try 3 17 ; 18 t1 pause ; 19 t1 raise 2 intdiv_e ; 20 t1 catch 3 2 19 ; 21 t1 pthread_setcancel CANCEL_OFF = 1 ; 22 t1 endcatch 3 ; 23 t1 endcatch 1 ; 24 t1 end 0 ; stop finished" stops.Finished }
{}

/// With both cancelabilities on the ends of empty bodies pause, a branch has no step for its end, and an exit pauses before it goes outward.
#[tactic(auto, unfolding(crate::specs::Words::history_words))]
pub fn pauses_at_ends()
    ensures { RunsAlone scripts.pauses_at_ends "1 p0 run t1 ; 2 t1 pthread_setasynccancel CANCEL_ON = 0 ; 3 t1 try 1 4 ; 4 t1 pause ; 5 t1 endtry 1 ; 6 t1 pause ; 7 t1 try 2 7 ; 8 t1 pause ; 9 t1 finally 2 0 ; 10 t1 pause ; 11 t1 endfin 2 ; 12 t1 pause ; 13 t1 pause ; 14 t1 pause ; 15 t1 exit 1 2 ; 16 t1 pause ; 17 t1 bottom 1 2 ; 18 t1 end 2 ; stop finished" stops.Finished }
{}

/// A delivery at the end of a try body, a catch body, a FINALLY body and a routine has the line that closes it; a cancel in a FINALLY body replaces the one that was pending there.
#[tactic(auto, unfolding(crate::specs::Words::history_words))]
pub fn deliveries_at_ends()
    ensures { RunsAlone scripts.deliveries_at_ends "1 p0 run t1 ; 2 t1 pthread_create default w 0 = 2 ; 3 t1 pthread_yield = ok ; 4 p0 run t2 ; 5 t2 pthread_setasynccancel CANCEL_ON = 0 ; 6 t2 try 1 5 ; 7 t2 pause ; 8 t2 try 2 6 ; 9 t2 pause ; 10 t2 try 3 7 ; 11 t2 pause ; 12 t2 pthread_yield = ok ; 13 p0 run t1 ; 14 t1 pthread_cancel 2 = pending ; 15 t1 pthread_yield = ok ; 16 p0 run t2 ; 17 t2 deliver 1 9 ; 18 t2 catch 3 1 9 ; 19 t2 pthread_yield = ok ; 20 p0 run t1 ; 21 t1 pthread_cancel 2 = pending ; 22 t1 pthread_yield = ok ; 23 p0 run t2 ; 24 t2 deliver 2 11 ; 25 t2 finally 2 2 ; 26 t2 pthread_yield = ok ; 27 p0 run t1 ; 28 t1 pthread_cancel 2 = pending ; 29 t1 pthread_yield = ok ; 30 p0 run t2 ; 31 t2 deliver 3 14 ; 32 t2 catch 1 3 15 ; 33 t2 endcatch 1 ; 34 t2 pause ; 35 t2 pthread_yield = ok ; 36 p0 run t1 ; 37 t1 pthread_cancel 2 = pending ; 38 t1 end 0 ; 39 p0 run t2 ; 40 t2 deliver 4 18 ; 41 t2 bottom 4 -1 ; 42 t2 end -1 ; stop finished" stops.Finished }
{}

/// The ends of a branch and a loop are no steps, so the delivery there has the line of the loop; at the end of a catch body it has the line of the next clause.
#[tactic(auto, unfolding(crate::specs::Words::history_words))]
pub fn deliveries_at_loops()
    ensures { RunsAlone scripts.deliveries_at_loops "1 p0 run t1 ; 2 t1 pthread_create default w 0 = 2 ; 3 t1 pthread_yield = ok ; 4 p0 run t2 ; 5 t2 pthread_setasynccancel CANCEL_ON = 0 ; 6 t2 try 1 4 ; 7 t2 pause ; 8 t2 pause ; 9 t2 pause ; 10 t2 pthread_yield = ok ; 11 p0 run t1 ; 12 t1 pthread_cancel 2 = pending ; 13 t1 pthread_yield = ok ; 14 p0 run t2 ; 15 t2 deliver 1 5 ; 16 t2 catch 1 1 12 ; 17 t2 pthread_yield = ok ; 18 p0 run t1 ; 19 t1 pthread_cancel 2 = pending ; 20 t1 end 0 ; 21 p0 run t2 ; 22 t2 deliver 2 14 ; 23 t2 bottom 2 -1 ; 24 t2 end -1 ; stop finished" stops.Finished }
{}

/// A cancel between the last step of a once routine and its end is delivered at the end of that routine; the block is undone and the next caller runs it.
#[tactic(auto, unfolding(crate::specs::Words::history_words))]
pub fn delivery_before_done()
    ensures { RunsAlone scripts.delivery_before_done "1 p0 run t1 ; 2 t1 pthread_create default w 0 = 2 ; 3 t1 pthread_yield = ok ; 4 p0 run t2 ; 5 t2 pthread_setasynccancel CANCEL_ON = 0 ; 6 t2 pthread_once o init = ok ; 7 t2 once 1 o ; 8 t2 pause ; 9 t2 pause ; 10 t2 pause ; 11 t2 pause ; 12 t2 pause ; 13 t2 pause ; 14 p0 run t1 ; 15 t1 pthread_cancel 2 = pending ; 16 t1 pthread_yield = ok ; 17 p0 run t2 ; 18 t2 deliver 1 9 ; 19 t2 undone 1 1 ; 20 t2 bottom 1 -1 ; 21 t2 end -1 ; 22 p0 run t1 ; 23 t1 pthread_once o init = ok ; 24 t1 once 1 o ; 25 t1 done 1 ; 26 t1 end 0 ; stop finished" stops.Finished }
{}

/// A thread that cancels itself with both cancelabilities on is delivered before its next step: at the line of `finally`, and at the end of a destructor, which is lost.
#[tactic(auto, unfolding(crate::specs::Words::history_words))]
pub fn deliveries_to_oneself()
    ensures { RunsAlone scripts.deliveries_to_oneself "1 p0 run t1 ; 2 t1 pthread_keycreate k gone = ok ; 3 t1 pthread_setspecific k 3 = ok ; 4 t1 pthread_setasynccancel CANCEL_ON = 0 ; 5 t1 try 1 10 ; 6 t1 pause ; 7 t1 pthread_cancel 1 = pending ; 8 t1 deliver 1 12 ; 9 t1 finally 1 1 ; 10 t1 say 0 ; 11 t1 endfin 1 ; 12 t1 pause ; 13 t1 bottom 1 -1 ; 14 t1 destroy 2 k 3 ; 15 t1 pthread_cancel 1 = pending ; 16 t1 deliver 2 5 ; 17 t1 lost 2 2 ; 18 t1 end -1 ; stop finished" stops.Finished }
{}

/// With both cancelabilities on, too, a wait for a mutex goes on under a cancel; its reply comes first and the delivery right after it, before a shared step.
#[tactic(auto, unfolding(crate::specs::Words::history_words))]
pub fn delivery_after_lock()
    ensures { RunsAlone scripts.delivery_after_lock "1 p0 run t1 ; 2 t1 pthread_mutex_init m default = ok ; 3 t1 pthread_mutex_lock m = ok ; 4 t1 pthread_create default locks 0 = 2 ; 5 t1 pthread_yield = ok ; 6 p0 run t2 ; 7 t2 pthread_setasynccancel CANCEL_ON = 0 ; 8 t2 pthread_mutex_lock m = blocks ; 9 p0 run t1 ; 10 t1 pthread_cancel 2 = pending ; 11 t1 pthread_mutex_unlock m = ok ; 12 t2 gift m ; 13 t1 end 0 ; 14 p0 run t2 ; 15 t2 ret = ok ; 16 t2 deliver 1 6 ; 17 t2 bottom 1 -1 ; 18 t2 end -1 ; stop finished" stops.Finished }
{}

/// On two processors a thread that runs is cancelled twice by another, and delivered before its next quiet step.
#[tactic(auto, unfolding(crate::specs::Words::history_words))]
pub fn cancel_of_running_thread()
    ensures { RunsBy scripts.cancel_of_running_thread 2 scripts.cancel_of_running_thread_events "1 p0 run t1 ; 2 t1 pthread_create default spins 0 = 2 ; 3 p1 run t2 ; 4 t2 pthread_setasynccancel CANCEL_ON = 0 ; 5 t2 pause ; 6 t1 pthread_cancel 2 = pending ; 7 t1 pthread_cancel 2 = merged ; 8 t2 deliver 1 4 ; 9 t2 bottom 1 -1 ; 10 t2 end -1 ; 11 t1 end 0 ; stop finished" stops.Finished }
{}

/// The 64th quiet step ends its turn with a pause: after 63 the shared step follows in the same turn, the 64th pauses behind its own line, and the 65th stands in the next turn.
#[tactic(auto, unfolding(crate::specs::Words::history_words))]
pub fn sixty_four_quiet_steps()
    ensures { RunsAlone scripts.sixty_four_quiet_steps "1 p0 run t1 ; 2 t1 try 1 7 ; 3 t1 say 63 ; 4 t1 endtry 1 ; 5 t1 try 2 15 ; 6 t1 pause ; 7 t1 say 64 ; 8 t1 endtry 2 ; 9 t1 pause ; 10 t1 try 3 24 ; 11 t1 say 65 ; 12 t1 endtry 3 ; 13 t1 end 0 ; stop finished" stops.Finished }
{}

/// The frames that an unwinding leaves do not count among the 64 quiet steps of a turn.
#[tactic(auto, unfolding(crate::specs::Words::history_words))]
pub fn outward_steps_not_counted()
    ensures { RunsAlone scripts.outward_steps_not_counted "1 p0 run t1 ; 2 t1 try 1 10 ; 3 t1 raise 1 e ; 4 t1 catch 1 1 12 ; 5 t1 say 63 ; 6 t1 endcatch 1 ; 7 t1 try 2 18 ; 8 t1 raise 2 e ; 9 t1 catch 2 2 20 ; 10 t1 pause ; 11 t1 say 64 ; 12 t1 endcatch 2 ; 13 t1 end 0 ; stop finished" stops.Finished }
{}

/// The error of a write that waited is raised and caught before the cancel is delivered, in the turn that catches it.
#[tactic(auto, unfolding(crate::specs::Words::history_words))]
pub fn delivery_after_catch()
    ensures { RunsAlone scripts.delivery_after_catch "1 p0 run t1 ; 2 t1 write p 1 = ok ; 3 t1 pthread_create default writes 0 = 2 ; 4 t1 pthread_yield = ok ; 5 p0 run t2 ; 6 t2 pthread_setasynccancel CANCEL_ON = 0 ; 7 t2 try 1 5 ; 8 t2 pause ; 9 t2 try 2 6 ; 10 t2 pause ; 11 t2 write p 2 = blocks ; 12 p0 run t1 ; 13 t1 close p = ok ; 14 t1 pthread_cancel 2 = pending ; 15 t1 end 0 ; 16 p0 run t2 ; 17 t2 ret = EPIPE ; 18 t2 raise 1 pipe_e ; 19 t2 catch 2 1 8 ; 20 t2 deliver 2 9 ; 21 t2 finally 1 2 ; 22 t2 say 2 ; 23 t2 endfin 1 ; 24 t2 pause ; 25 t2 bottom 2 -1 ; 26 t2 end -1 ; stop finished" stops.Finished }
{}

/// After the last frame the end step comes before a delivery: the destructor begins, is cancelled before its first statement and lost, and the value of the thread stays.
#[tactic(auto, unfolding(crate::specs::Words::history_words))]
pub fn end_step_before_delivery()
    ensures { RunsAlone scripts.end_step_before_delivery "1 p0 run t1 ; 2 t1 pthread_keycreate k frees = ok ; 3 t1 pthread_create default w 0 = 2 ; 4 t1 pthread_yield = ok ; 5 p0 run t2 ; 6 t2 pthread_setspecific k 3 = ok ; 7 t2 pthread_setasynccancel CANCEL_ON = 0 ; 8 t2 pause ; 9 t2 pause ; 10 t2 pause ; 11 t2 pause ; 12 t2 pause ; 13 t2 pause ; 14 p0 run t1 ; 15 t1 pthread_cancel 2 = pending ; 16 t1 pthread_join 2 = blocks ; 17 p0 run t2 ; 18 t2 destroy 1 k 3 ; 19 t2 deliver 1 4 ; 20 t2 lost 1 1 ; 21 t2 end 5 ; 22 p0 run t1 ; 23 t1 ret = 5 ; 24 t1 end 0 ; stop finished" stops.Finished }
{}

/// A cancel that comes between the last frame and the end step is not delivered before that step: without a destructor the thread ends with its own value.
#[tactic(auto, unfolding(crate::specs::Words::history_words))]
pub fn cancel_before_end_step()
    ensures { RunsAlone scripts.cancel_before_end_step "1 p0 run t1 ; 2 t1 pthread_create default w 0 = 2 ; 3 t1 pthread_yield = ok ; 4 p0 run t2 ; 5 t2 pthread_setasynccancel CANCEL_ON = 0 ; 6 t2 pause ; 7 t2 pause ; 8 t2 pause ; 9 t2 pause ; 10 t2 pause ; 11 t2 pause ; 12 t2 pause ; 13 p0 run t1 ; 14 t1 pthread_cancel 2 = pending ; 15 t1 pthread_join 2 = blocks ; 16 p0 run t2 ; 17 t2 end 5 ; 18 p0 run t1 ; 19 t1 ret = 5 ; 20 t1 pthread_cancel 2 = ended ; 21 t1 end 0 ; stop finished" stops.Finished }
{}

/// A cancel that is pending is delivered as soon as both cancelabilities are on, before the try that follows opens; at the end of a called routine the delivery has the line of its `end`.
#[tactic(auto, unfolding(crate::specs::Words::history_words))]
pub fn delivery_before_try()
    ensures { RunsAlone scripts.delivery_before_try "1 p0 run t1 ; 2 t1 try 1 6 ; 3 t1 pthread_cancel 1 = pending ; 4 t1 say 1 ; 5 t1 pthread_setasynccancel CANCEL_ON = 0 ; 6 t1 deliver 1 10 ; 7 t1 catch 1 1 15 ; 8 t1 pause ; 9 t1 pthread_cancel 1 = pending ; 10 t1 deliver 2 4 ; 11 t1 bottom 2 -1 ; 12 t1 end -1 ; stop finished" stops.Finished }
{}

/// On two processors a thread with asynchronous cancelability off is cancelled between two of its turns, and the cancel waits through quiet steps until a point.
#[tactic(auto, unfolding(crate::specs::Words::history_words))]
pub fn cancel_waits_for_point()
    ensures { RunsBy scripts.cancel_waits_for_point 2 scripts.cancel_waits_for_point_events "1 p0 run t1 ; 2 t1 pthread_create default counts 0 = 2 ; 3 p1 run t2 ; 4 t2 pause ; 5 t1 pthread_cancel 2 = pending ; 6 t1 pthread_join 2 = blocks ; 7 t2 deliver 1 6 ; 8 t2 bottom 1 -1 ; 9 t2 end -1 ; 10 p1 run t1 ; 11 t1 ret = -1 ; 12 t1 say -1 ; 13 t1 end 0 ; stop finished" stops.Finished }
{}

/// A cancel that is delivered where a FINALLY body begins replaces the error that was pending there.
#[tactic(auto, unfolding(crate::specs::Words::history_words))]
pub fn delivery_replaces_error()
    ensures { RunsAlone scripts.delivery_replaces_error "1 p0 run t1 ; 2 t1 write p 1 = ok ; 3 t1 pthread_create default writes 0 = 2 ; 4 t1 pthread_yield = ok ; 5 p0 run t2 ; 6 t2 pthread_setasynccancel CANCEL_ON = 0 ; 7 t2 try 1 5 ; 8 t2 pause ; 9 t2 write p 2 = blocks ; 10 p0 run t1 ; 11 t1 close p = ok ; 12 t1 pthread_cancel 2 = pending ; 13 t1 pthread_join 2 = blocks ; 14 p0 run t2 ; 15 t2 ret = EPIPE ; 16 t2 raise 1 pipe_e ; 17 t2 finally 1 1 ; 18 t2 deliver 2 8 ; 19 t2 bottom 2 -1 ; 20 t2 end -1 ; 21 p0 run t1 ; 22 t1 ret = -1 ; 23 t1 end 0 ; stop finished" stops.Finished }
{}

/// A new thread has both cancelabilities at their starting states, whatever those of its maker are.
#[tactic(auto, unfolding(crate::specs::Words::history_words))]
pub fn starting_cancelabilities()
    ensures { RunsAlone scripts.starting_cancelabilities "1 p0 run t1 ; 2 t1 pthread_setasynccancel CANCEL_ON = 0 ; 3 t1 pthread_setcancel CANCEL_OFF = 1 ; 4 t1 pthread_create default w 0 = 2 ; 5 t1 pthread_join 2 = blocks ; 6 p0 run t2 ; 7 t2 pthread_setcancel CANCEL_OFF = 1 ; 8 t2 pthread_setasynccancel CANCEL_ON = 0 ; 9 t2 pthread_setasynccancel CANCEL_OFF = 1 ; 10 t2 pthread_setcancel CANCEL_OFF = 0 ; 11 t2 end 0 ; 12 p0 run t1 ; 13 t1 ret = 0 ; 14 t1 end 0 ; stop finished" stops.Finished }
{}

/// On two processors a thread is cancelled while an exception goes on behind its FINALLY body: it is caught first, and the cancel is delivered in the empty catch body.
#[tactic(auto, unfolding(crate::specs::Words::history_words))]
pub fn unwinding_before_delivery()
    ensures { RunsBy scripts.unwinding_before_delivery 2 scripts.unwinding_before_delivery_events "1 p0 run t1 ; 2 t1 pthread_create default w 0 = 2 ; 3 p1 run t2 ; 4 t2 pthread_setasynccancel CANCEL_ON = 0 ; 5 t2 try 1 5 ; 6 t2 pause ; 7 t2 try 2 6 ; 8 t2 pause ; 9 t2 raise 1 e ; 10 t2 pause ; 11 t2 finally 2 1 ; 12 t2 endfin 2 ; 13 t2 pause ; 14 t1 pthread_cancel 2 = pending ; 15 t2 catch 1 1 10 ; 16 t2 deliver 2 11 ; 17 t2 bottom 2 -1 ; 18 t2 end -1 ; 19 t1 end 0 ; stop finished" stops.Finished }
{}

/// On two processors a destructor ends with two pauses; in another thread the cancel comes between them, and is delivered with the line of the `end` of the destructor, which returned before it.
#[tactic(auto, unfolding(crate::specs::Words::history_words))]
pub fn delivery_at_destructor_end()
    ensures { RunsBy scripts.delivery_at_destructor_end 2 scripts.delivery_at_destructor_end_events "1 p0 run t1 ; 2 t1 pthread_keycreate k frees = ok ; 3 t1 pthread_create default w 0 = 2 ; 4 t1 pthread_create default w 0 = 3 ; 5 p1 run t2 ; 6 t2 pthread_setspecific k 3 = ok ; 7 t2 pthread_setasynccancel CANCEL_ON = 0 ; 8 t2 pause ; 9 t2 destroy 1 k 3 ; 10 t2 say 3 ; 11 t2 pause ; 12 t2 enddes 1 ; 13 t2 pause ; 14 t2 end 0 ; 15 t1 pthread_join 2 = 0 ; 16 p1 run t3 ; 17 t3 pthread_setspecific k 3 = ok ; 18 t3 pthread_setasynccancel CANCEL_ON = 0 ; 19 t3 pause ; 20 t3 destroy 1 k 3 ; 21 t3 say 3 ; 22 t3 pause ; 23 t1 pthread_cancel 3 = pending ; 24 t3 deliver 1 6 ; 25 t3 lost 1 1 ; 26 t3 end 0 ; 27 t1 end 0 ; stop finished" stops.Finished }
{}

/// With both cancelabilities on a statement that reads or sets a shared variable writes its own line and no pause, a return too.
#[tactic(auto, unfolding(crate::specs::Words::history_words))]
pub fn shared_steps_without_pause()
    ensures { RunsAlone scripts.shared_steps_without_pause "1 p0 run t1 ; 2 t1 pthread_setasynccancel CANCEL_ON = 0 ; 3 t1 while 8 1 ; 4 t1 set 9 1 ; 5 t1 while 8 0 ; 6 t1 if 11 1 ; 7 t1 call 12 1 ; 8 t1 pause ; 9 t1 set 14 1 ; 10 t1 return 15 1 ; 11 t1 end 1 ; stop finished" stops.Finished }
{}

/// The end of a routine is a quiet step: as the 63rd of its turn the end step follows at once, as the 64th it pauses first; a raise that is the 64th pauses before it goes outward.
#[tactic(auto, unfolding(crate::specs::Words::history_words))]
pub fn ends_as_quiet_steps()
    ensures { RunsAlone scripts.ends_as_quiet_steps "1 p0 run t1 ; 2 t1 pthread_create default three 0 = 2 ; 3 t1 pthread_create default four 0 = 3 ; 4 t1 pthread_create default raises 0 = 4 ; 5 t1 end 0 ; 6 p0 run t2 ; 7 t2 end 0 ; 8 p0 run t3 ; 9 t3 pause ; 10 t3 end 0 ; 11 p0 run t4 ; 12 t4 raise 1 e ; 13 t4 pause ; 14 t4 bottom 1 -2 ; 15 t4 end -2 ; stop finished" stops.Finished }
{}
