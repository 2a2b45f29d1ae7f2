//! Worked histories of unwindings and full stacks.

ghost use Rattle.thr_values.specs.declared.event.Stop.TheVariants as stops;
ghost use Rattle.thr_histories.specs.Runs.{RunsAlone};
ghost use Rattle.thr_histories_turns.specs.MachineScripts as scripts;

/// An exit whose value reads a shared variable leaves a call, passes CATCH_ALL twice, and runs the FINALLY body between.
#[tactic(auto, unfolding(crate::specs::Words::history_words))]
pub fn exit_through_finally()
    ensures { RunsAlone scripts.exit_through_finally "1 p0 run t1 ; 2 t1 try 1 11 ; 3 t1 try 2 12 ; 4 t1 try 3 4 ; 5 t1 exit 1 9 ; 6 t1 finally 2 1 ; 7 t1 say 2 ; 8 t1 endfin 2 ; 9 t1 bottom 1 9 ; 10 t1 end 9 ; stop finished" stops.Finished }
{}

/// What is raised again in a catch body goes outward past every try whose catch body is running, also past its CATCH_ALL, and past a clause that doesn't match.
#[tactic(auto, unfolding(crate::specs::Words::history_words))]
pub fn raise_in_catch_body()
    ensures { RunsAlone scripts.raise_in_catch_body "1 p0 run t1 ; 2 t1 try 1 6 ; 3 t1 try 2 7 ; 4 t1 raise 1 status 5 ; 5 t1 catch 2 1 9 ; 6 t1 say 5 ; 7 t1 try 3 11 ; 8 t1 raise 2 status 8 ; 9 t1 catch 3 2 13 ; 10 t1 say 1 ; 11 t1 reraise 3 status 8 ; 12 t1 catch 1 3 21 ; 13 t1 say 7 ; 14 t1 endcatch 1 ; 15 t1 end 0 ; stop finished" stops.Finished }
{}

/// After an inner catch body `this` is again what the outer one has caught, also in a FINALLY body inside it; RERAISE goes through two tries to the next CATCH_ALL.
#[tactic(auto, unfolding(crate::specs::Words::history_words))]
pub fn this_of_nested_catch_bodies()
    ensures { RunsAlone scripts.this_of_nested_catch_bodies "1 p0 run t1 ; 2 t1 try 1 6 ; 3 t1 try 2 7 ; 4 t1 raise 1 status 5 ; 5 t1 catch 2 1 9 ; 6 t1 try 3 10 ; 7 t1 raise 2 status 8 ; 8 t1 catch 3 2 14 ; 9 t1 say 8 ; 10 t1 endcatch 3 ; 11 t1 say 5 ; 12 t1 reraise 3 status 5 ; 13 t1 catch 1 3 22 ; 14 t1 try 4 23 ; 15 t1 raise 4 p ; 16 t1 finally 4 4 ; 17 t1 say 5 ; 18 t1 endfin 4 ; 19 t1 bottom 4 -2 ; 20 t1 end -2 ; stop finished" stops.Finished }
{}

/// A raise that is caught inside a FINALLY body leaves the pending unwinding; an exit in a FINALLY body replaces it, and CATCH_ALL outside doesn't catch the exit.
#[tactic(auto, unfolding(crate::specs::Words::history_words))]
pub fn finally_replaced_by_exit()
    ensures { RunsAlone scripts.finally_replaced_by_exit "1 p0 run t1 ; 2 t1 try 1 5 ; 3 t1 try 2 6 ; 4 t1 try 3 7 ; 5 t1 raise 1 p ; 6 t1 finally 3 1 ; 7 t1 try 4 10 ; 8 t1 raise 2 q ; 9 t1 catch 4 2 12 ; 10 t1 say 1 ; 11 t1 endcatch 4 ; 12 t1 endfin 3 ; 13 t1 finally 2 1 ; 14 t1 exit 3 6 ; 15 t1 bottom 3 6 ; 16 t1 end 6 ; stop finished" stops.Finished }
{}

/// On a stack of 16 frames a `call` that doesn't fit raises inside the innermost try, before its expression is evaluated, and a `try` that doesn't fit raises outside itself; `err` stays.
#[tactic(auto, unfolding(crate::specs::Words::history_words))]
pub fn stack_overflow()
    ensures { RunsAlone scripts.stack_overflow "1 p0 run t1 ; 2 t1 pthread_attr_create a = ok ; 3 t1 pthread_attr_setstacksize a 16 = ok ; 4 t1 pthread_create a deep 0 = 2 ; 5 t1 pthread_create a above 0 = 3 ; 6 t1 end 0 ; 7 p0 run t2 ; 8 t2 try 1 5 ; 9 t2 try 2 5 ; 10 t2 try 3 5 ; 11 t2 try 4 5 ; 12 t2 try 5 5 ; 13 t2 try 6 5 ; 14 t2 try 7 5 ; 15 t2 try 8 5 ; 16 t2 raise 1 stackovf_e ; 17 t2 catch 8 1 7 ; 18 t2 say 7 ; 19 t2 say 0 ; 20 t2 endcatch 8 ; 21 t2 endtry 7 ; 22 t2 endtry 6 ; 23 t2 endtry 5 ; 24 t2 endtry 4 ; 25 t2 endtry 3 ; 26 t2 endtry 2 ; 27 t2 endtry 1 ; 28 t2 end 0 ; 29 p0 run t3 ; 30 t3 pthread_detach 9 = ESRCH ; 31 t3 try 1 5 ; 32 t3 try 2 5 ; 33 t3 try 3 5 ; 34 t3 try 4 5 ; 35 t3 try 5 5 ; 36 t3 try 6 5 ; 37 t3 try 7 5 ; 38 t3 raise 1 stackovf_e ; 39 t3 catch 7 1 7 ; 40 t3 say 6 ; 41 t3 say 3 ; 42 t3 endcatch 7 ; 43 t3 endtry 6 ; 44 t3 endtry 5 ; 45 t3 endtry 4 ; 46 t3 endtry 3 ; 47 t3 endtry 2 ; 48 t3 endtry 1 ; 49 t3 end 0 ; stop finished" stops.Finished }
{}

/// An exception `cancel_e` that is raised by `raise` or `reraise` and leaves the last frame ends its thread with -1, as a delivered cancel does.
#[tactic(auto, unfolding(crate::specs::Words::history_words))]
pub fn raised_cancel()
    ensures { RunsAlone scripts.raised_cancel "1 p0 run t1 ; 2 t1 pthread_create default w 0 = 2 ; 3 t1 pthread_join 2 = blocks ; 4 p0 run t2 ; 5 t2 raise 1 cancel_e ; 6 t2 bottom 1 -1 ; 7 t2 end -1 ; 8 p0 run t1 ; 9 t1 ret = -1 ; 10 t1 say -1 ; 11 t1 try 1 10 ; 12 t1 pthread_cancel 1 = pending ; 13 t1 deliver 1 12 ; 14 t1 catch 1 1 13 ; 15 t1 say -1 ; 16 t1 reraise 2 cancel_e ; 17 t1 bottom 2 -1 ; 18 t1 end -1 ; stop finished" stops.Finished }
{}

/// A read that is cancelled while it waits leaves `err` and both its variables as they were.
#[tactic(auto, unfolding(crate::specs::Words::history_words))]
pub fn err_after_cancelled_wait()
    ensures { RunsAlone scripts.err_after_cancelled_wait "1 p0 run t1 ; 2 t1 pthread_create default w 5 = 2 ; 3 t1 pthread_yield = ok ; 4 p0 run t2 ; 5 t2 pthread_detach 9 = ESRCH ; 6 t2 try 1 6 ; 7 t2 read p = blocks ; 8 p0 run t1 ; 9 t1 pthread_cancel 2 = wakes ; 10 t1 end 0 ; 11 p0 run t2 ; 12 t2 deliver 1 7 ; 13 t2 catch 1 1 8 ; 14 t2 say 3 ; 15 t2 say 5 ; 16 t2 endcatch 1 ; 17 t2 end 0 ; stop finished" stops.Finished }
{}

/// A raise in the FINALLY body that an exit runs replaces the exit; it is caught outside, and the thread goes on.
#[tactic(auto, unfolding(crate::specs::Words::history_words))]
pub fn exit_replaced_by_raise()
    ensures { RunsAlone scripts.exit_replaced_by_raise "1 p0 run t1 ; 2 t1 try 1 4 ; 3 t1 try 2 5 ; 4 t1 exit 1 5 ; 5 t1 finally 2 1 ; 6 t1 raise 2 p ; 7 t1 catch 1 2 10 ; 8 t1 say 1 ; 9 t1 endcatch 1 ; 10 t1 end 2 ; stop finished" stops.Finished }
{}
