//! Worked histories of exceptions, routines and shared variables.

ghost use Rattle.thr_values.specs.declared.event.Stop.TheVariants as stops;
ghost use Rattle.thr_histories.specs.Runs.{RunsAlone};
ghost use Rattle.thr_examples.specs.Scripts as scripts;

/// A routine that says a number.
#[tactic(auto, unfolding(crate::specs::Words::history_words))]
pub fn saying_seven()
    ensures { RunsAlone scripts.saying_seven "1 p0 run t1 ; 2 t1 say 7 ; 3 t1 end 0 ; stop finished" stops.Finished }
{}

/// A status exception is caught by its number, across a call and two FINALLY bodies.
#[tactic(auto, unfolding(crate::specs::Words::history_words))]
pub fn match_by_number()
    ensures { RunsAlone scripts.match_by_number "1 p0 run t1 ; 2 t1 try 1 12 ; 3 t1 try 2 13 ; 4 t1 try 3 5 ; 5 t1 raise 1 status 5 ; 6 t1 finally 3 1 ; 7 t1 say 1 ; 8 t1 endfin 3 ; 9 t1 finally 2 1 ; 10 t1 say 2 ; 11 t1 endfin 2 ; 12 t1 catch 1 1 18 ; 13 t1 say 5 ; 14 t1 endcatch 1 ; 15 t1 end 0 ; stop finished" stops.Finished }
{}

/// A FINALLY body that raises replaces what was pending in it.
#[tactic(auto, unfolding(crate::specs::Words::history_words))]
pub fn finally_raises()
    ensures { RunsAlone scripts.finally_raises "1 p0 run t1 ; 2 t1 try 1 5 ; 3 t1 try 2 6 ; 4 t1 raise 1 p ; 5 t1 finally 2 1 ; 6 t1 raise 2 q ; 7 t1 catch 1 2 11 ; 8 t1 say 1 ; 9 t1 endcatch 1 ; 10 t1 end 0 ; stop finished" stops.Finished }
{}

/// A sum outside 64 bits raises in the place of its statement.
#[tactic(auto, unfolding(crate::specs::Words::history_words))]
pub fn overflow()
    ensures { RunsAlone scripts.overflow "1 p0 run t1 ; 2 t1 raise 1 intovf_e ; 3 t1 bottom 1 -2 ; 4 t1 end -2 ; stop finished" stops.Finished }
{}

/// A shared variable is set and said.
#[tactic(auto, unfolding(crate::specs::Words::history_words))]
pub fn shared_variable()
    ensures { RunsAlone scripts.shared_variable "1 p0 run t1 ; 2 t1 set 4 5 ; 3 t1 say 5 ; 4 t1 end 0 ; stop finished" stops.Finished }
{}
