//! Worked histories of once routines and destructors.

ghost use Rattle.thr_values.specs.declared.event.Stop.TheVariants as stops;
ghost use Rattle.thr_histories.specs.Runs.{RunsAlone};
ghost use Rattle.thr_histories_turns.specs.MachineScripts as scripts;

/// Destructors are called in the order of the declarations of their keys; one that sets its value again is called again before the next key; a key without a destructor is passed over; one that exits is lost, and neither its exit nor a returned value changes the thread's value.
#[tactic(auto, unfolding(crate::specs::Words::history_words))]
pub fn destructors_in_order()
    ensures { RunsAlone scripts.destructors_in_order "1 p0 run t1 ; 2 t1 pthread_keycreate j leave = ok ; 3 t1 pthread_keycreate k again = ok ; 4 t1 pthread_keycreate n none = ok ; 5 t1 pthread_setspecific j 5 = ok ; 6 t1 pthread_setspecific k 2 = ok ; 7 t1 pthread_setspecific n 3 = ok ; 8 t1 destroy 1 k 2 ; 9 t1 say 2 ; 10 t1 pthread_setspecific k 1 = ok ; 11 t1 enddes 1 ; 12 t1 destroy 2 k 1 ; 13 t1 say 1 ; 14 t1 enddes 2 ; 15 t1 destroy 3 j 5 ; 16 t1 try 4 13 ; 17 t1 exit 1 45 ; 18 t1 finally 4 1 ; 19 t1 pthread_getspecific n = 3 ; 20 t1 say 3 ; 21 t1 endfin 4 ; 22 t1 lost 3 1 ; 23 t1 end 9 ; stop finished" stops.Finished }
{}

/// A once routine that enters its own block gets EDEADLK and catches it; the second caller waits and gets `ok` at `done`. With both cancelabilities on the end of the routine's frame is a step with `pause`, and `done` is the next turn.
#[tactic(auto, unfolding(crate::specs::Words::history_words))]
pub fn once_entered_again()
    ensures { RunsAlone scripts.once_entered_again "1 p0 run t1 ; 2 t1 pthread_create default w 4 = 2 ; 3 t1 pthread_once o init = ok ; 4 t1 once 1 o ; 5 t1 pthread_yield = ok ; 6 p0 run t2 ; 7 t2 pthread_once o init = blocks ; 8 p0 run t1 ; 9 t1 try 2 5 ; 10 t1 pthread_once o init = EDEADLK ; 11 t1 raise 1 use_error_e ; 12 t1 catch 2 1 7 ; 13 t1 say 35 ; 14 t1 endcatch 2 ; 15 t1 pthread_setasynccancel CANCEL_ON = 0 ; 16 t1 pause ; 17 t1 done 1 ; 18 t1 say 3 ; 19 t1 pthread_once o init = ok ; 20 t1 pause ; 21 p0 run t2 ; 22 t2 ret = ok ; 23 t2 say 4 ; 24 t2 end 0 ; 25 p0 run t1 ; 26 t1 end 0 ; stop finished" stops.Finished }
{}

/// A once routine that enters its own block and doesn't catch the error is unwound; the waiter holds the block at once and runs the routine of its own call, so the first caller, which comes again, waits.
#[tactic(auto, unfolding(crate::specs::Words::history_words))]
pub fn once_entered_again_unwound()
    ensures { RunsAlone scripts.once_entered_again_unwound "1 p0 run t1 ; 2 t1 pthread_create default w 4 = 2 ; 3 t1 try 1 17 ; 4 t1 pthread_once o init = ok ; 5 t1 once 2 o ; 6 t1 pthread_yield = ok ; 7 p0 run t2 ; 8 t2 pthread_once o other = blocks ; 9 p0 run t1 ; 10 t1 pthread_once o init = EDEADLK ; 11 t1 raise 1 use_error_e ; 12 t1 undone 2 1 ; 13 t1 catch 1 1 19 ; 14 t1 pthread_once o init = blocks ; 15 p0 run t2 ; 16 t2 ret = ok ; 17 t2 once 1 o ; 18 t2 say 6 ; 19 t2 done 1 ; 20 t2 say 4 ; 21 t2 end 0 ; 22 p0 run t1 ; 23 t1 ret = ok ; 24 t1 say 0 ; 25 t1 endcatch 1 ; 26 t1 end 0 ; stop finished" stops.Finished }
{}

/// `pthread_once` with one free frame raises `stackovf_e` without a call line and leaves `err`, though the block is done and in the interface `status` too; with two free frames it runs its routine. A stack size of 15 is refused.
#[tactic(auto, unfolding(crate::specs::Words::history_words))]
pub fn once_without_two_frames()
    ensures { RunsAlone scripts.once_without_two_frames "1 p0 run t1 ; 2 t1 pthread_attr_create a = ok ; 3 t1 pthread_attr_setstacksize a 15 = EINVAL ; 4 t1 say 22 ; 5 t1 pthread_attr_setstacksize a 16 = ok ; 6 t1 pthread_create a down 12 = 2 ; 7 t1 pthread_create a down 13 = 3 ; 8 t1 end 0 ; 9 p0 run t2 ; 10 t2 try 1 12 ; 11 t2 pthread_detach 9 = ESRCH ; 12 t2 pthread_once o init = ok ; 13 t2 once 2 o ; 14 t2 say 7 ; 15 t2 done 2 ; 16 t2 endtry 1 ; 17 t2 end 0 ; 18 p0 run t3 ; 19 t3 try 1 12 ; 20 t3 pthread_detach 9 = ESRCH ; 21 t3 raise 1 stackovf_e ; 22 t3 catch 1 1 15 ; 23 t3 say 1 ; 24 t3 say 3 ; 25 t3 endcatch 1 ; 26 t3 end 0 ; stop finished" stops.Finished }
{}

/// An exit leaves a once routine: the block is as not run, CATCH_ALL around the call doesn't catch the exit, and the next caller runs its own routine.
#[tactic(auto, unfolding(crate::specs::Words::history_words))]
pub fn exit_in_once_routine()
    ensures { RunsAlone scripts.exit_in_once_routine "1 p0 run t1 ; 2 t1 pthread_create default w 0 = 2 ; 3 t1 try 1 15 ; 4 t1 pthread_once o leave = ok ; 5 t1 once 2 o ; 6 t1 exit 1 8 ; 7 t1 undone 2 1 ; 8 t1 bottom 1 8 ; 9 t1 end 8 ; 10 p0 run t2 ; 11 t2 pthread_once o good = ok ; 12 t2 once 1 o ; 13 t2 say 2 ; 14 t2 done 1 ; 15 t2 end 0 ; stop finished" stops.Finished }
{}

/// At `done` the waiters of the once block become ready best first: the one that was raised while it waited comes before the other, and stays so after it is lowered.
#[tactic(auto, unfolding(crate::specs::Words::history_words))]
pub fn done_wakes_best_first()
    ensures { RunsAlone scripts.done_wakes_best_first "1 p0 run t1 ; 2 t1 pthread_create default w 4 = 2 ; 3 t1 pthread_create default w 5 = 3 ; 4 t1 pthread_once o init = ok ; 5 t1 once 1 o ; 6 t1 pthread_yield = ok ; 7 p0 run t2 ; 8 t2 pthread_once o init = blocks ; 9 p0 run t3 ; 10 t3 pthread_once o init = blocks ; 11 p0 run t1 ; 12 t1 pthread_setprio 1 31 = 16 ; 13 t1 pthread_setprio 3 20 = 16 ; 14 t1 done 1 ; 15 t1 pthread_setprio 3 16 = 20 ; 16 t1 end 0 ; 17 p0 run t3 ; 18 t3 ret = ok ; 19 t3 say 5 ; 20 t3 end 0 ; 21 p0 run t2 ; 22 t2 ret = ok ; 23 t2 say 4 ; 24 t2 end 0 ; stop finished" stops.Finished }
{}

/// After each destructor the key of least number with a value is taken anew, so a key that a destructor has set comes before that destructor's own key; destructors are called after an exception has left the last frame, too.
#[tactic(auto, unfolding(crate::specs::Words::history_words))]
pub fn destructor_sets_lesser_key()
    ensures { RunsAlone scripts.destructor_sets_lesser_key "1 p0 run t1 ; 2 t1 pthread_keycreate k plain = ok ; 3 t1 pthread_keycreate j sets = ok ; 4 t1 pthread_setspecific j 5 = ok ; 5 t1 raise 1 p ; 6 t1 bottom 1 -2 ; 7 t1 destroy 1 j 5 ; 8 t1 pthread_setspecific k 6 = ok ; 9 t1 pthread_setspecific j 4 = ok ; 10 t1 enddes 1 ; 11 t1 destroy 2 k 6 ; 12 t1 say 6 ; 13 t1 enddes 2 ; 14 t1 destroy 3 j 4 ; 15 t1 pthread_setspecific k 5 = ok ; 16 t1 enddes 3 ; 17 t1 destroy 4 k 5 ; 18 t1 say 5 ; 19 t1 enddes 4 ; 20 t1 end -2 ; stop finished" stops.Finished }
{}

/// A cancel that is still pending when the thread returns is delivered at a point of a destructor: its FINALLY body runs, the destructor is lost, the next one is called, and the thread's value stays.
#[tactic(auto, unfolding(crate::specs::Words::history_words))]
pub fn cancel_in_destructor()
    ensures { RunsAlone scripts.cancel_in_destructor "1 p0 run t1 ; 2 t1 pthread_keycreate k point = ok ; 3 t1 pthread_keycreate j point = ok ; 4 t1 pthread_setspecific k 3 = ok ; 5 t1 pthread_setspecific j 4 = ok ; 6 t1 pthread_cancel 1 = pending ; 7 t1 destroy 1 k 3 ; 8 t1 try 2 5 ; 9 t1 deliver 1 6 ; 10 t1 finally 2 1 ; 11 t1 say 3 ; 12 t1 endfin 2 ; 13 t1 lost 1 1 ; 14 t1 destroy 3 j 4 ; 15 t1 try 4 5 ; 16 t1 pthread_testcancel = ok ; 17 t1 finally 4 0 ; 18 t1 say 4 ; 19 t1 endfin 4 ; 20 t1 say 0 ; 21 t1 enddes 3 ; 22 t1 end 9 ; stop finished" stops.Finished }
{}

/// A routine calls itself and its values come back; a return leaves a loop; the end of a routine returns 0; calls, conditions, loops, returns and assignments that read or write a shared variable write their lines and values.
#[tactic(auto, unfolding(crate::specs::Words::history_words))]
pub fn calls_and_returns()
    ensures { RunsAlone scripts.calls_and_returns "1 p0 run t1 ; 2 t1 call 24 3 ; 3 t1 say 6 ; 4 t1 if 13 0 ; 5 t1 if 13 0 ; 6 t1 if 13 1 ; 7 t1 return 14 3 ; 8 t1 say 3 ; 9 t1 say 0 ; 10 t1 if 13 1 ; 11 t1 return 14 3 ; 12 t1 while 31 1 ; 13 t1 set 32 4 ; 14 t1 while 31 1 ; 15 t1 set 32 5 ; 16 t1 while 31 0 ; 17 t1 end 0 ; stop finished" stops.Finished }
{}

/// Each thread has its own value of a key, 0 at first; the destructor is called for a value that isn't 0, in the thread whose value it is. A key that isn't made is EINVAL, one that is made already EBUSY.
#[tactic(auto, unfolding(crate::specs::Words::history_words))]
pub fn values_of_each_thread()
    ensures { RunsAlone scripts.values_of_each_thread "1 p0 run t1 ; 2 t1 pthread_setspecific k 4 = EINVAL ; 3 t1 pthread_getspecific k = EINVAL ; 4 t1 pthread_keycreate k d = ok ; 5 t1 pthread_keycreate k none = EBUSY ; 6 t1 pthread_setspecific k 4 = ok ; 7 t1 pthread_create default w 5 = 2 ; 8 t1 pthread_join 2 = blocks ; 9 p0 run t2 ; 10 t2 pthread_getspecific k = 0 ; 11 t2 pthread_setspecific k 60 = ok ; 12 t2 destroy 1 k 60 ; 13 t2 say 62 ; 14 t2 enddes 1 ; 15 t2 end 0 ; 16 p0 run t1 ; 17 t1 ret = 0 ; 18 t1 pthread_getspecific k = 4 ; 19 t1 pthread_setspecific k 0 = ok ; 20 t1 end 0 ; stop finished" stops.Finished }
{}

/// An exception that a once routine raises in a destructor undoes the block, runs the FINALLY body around the call, and is lost at the destructor.
#[tactic(auto, unfolding(crate::specs::Words::history_words))]
pub fn once_in_destructor()
    ensures { RunsAlone scripts.once_in_destructor "1 p0 run t1 ; 2 t1 pthread_keycreate k d = ok ; 3 t1 pthread_setspecific k 3 = ok ; 4 t1 destroy 1 k 3 ; 5 t1 try 2 9 ; 6 t1 pthread_once o bad = ok ; 7 t1 once 3 o ; 8 t1 raise 1 p ; 9 t1 undone 3 1 ; 10 t1 finally 2 1 ; 11 t1 say 3 ; 12 t1 endfin 2 ; 13 t1 lost 1 1 ; 14 t1 end 0 ; stop finished" stops.Finished }
{}

/// A thread that was handed a once block and owes its running is cancelled: the cancel is pending, the running comes first, and the cancel is delivered at a point of the routine, which undoes the block again.
#[tactic(auto, unfolding(crate::specs::Words::history_words))]
pub fn cancelled_runner_of_once()
    ensures { RunsAlone scripts.cancelled_runner_of_once "1 p0 run t1 ; 2 t1 pthread_create default w 4 = 2 ; 3 t1 try 1 18 ; 4 t1 pthread_once o bad = ok ; 5 t1 once 2 o ; 6 t1 pthread_yield = ok ; 7 p0 run t2 ; 8 t2 pthread_once o point = blocks ; 9 p0 run t1 ; 10 t1 raise 1 p ; 11 t1 undone 2 1 ; 12 t1 catch 1 1 20 ; 13 t1 pthread_cancel 2 = pending ; 14 t1 endcatch 1 ; 15 t1 end 0 ; 16 p0 run t2 ; 17 t2 ret = ok ; 18 t2 once 1 o ; 19 t2 say 1 ; 20 t2 deliver 1 10 ; 21 t2 undone 1 1 ; 22 t2 bottom 1 -1 ; 23 t2 end -1 ; stop finished" stops.Finished }
{}
