//! Worked histories of threads that wait for pipes.

ghost use Rattle.thr_values.specs.declared.event.Stop.TheVariants as stops;
ghost use Rattle.thr_histories.specs.Runs.{RunsAlone};
ghost use Rattle.thr_histories_turns.specs.MachineScripts as scripts;

/// The waiting readers of a pipe that is closed get `eof` and both variables 0, best first: the one that was raised while it waited becomes ready before the other, and stays so after it is lowered.
#[tactic(auto, unfolding(crate::specs::Words::history_words))]
pub fn closed_with_readers()
    ensures { RunsAlone scripts.closed_with_readers "1 p0 run t1 ; 2 t1 pthread_create default r 0 = 2 ; 3 t1 pthread_create default r 0 = 3 ; 4 t1 pthread_yield = ok ; 5 p0 run t2 ; 6 t2 read p = blocks ; 7 p0 run t3 ; 8 t3 read p = blocks ; 9 p0 run t1 ; 10 t1 pthread_setprio 1 31 = 16 ; 11 t1 pthread_setprio 3 20 = 16 ; 12 t1 close p = ok ; 13 t1 pthread_setprio 3 16 = 20 ; 14 t1 end 0 ; 15 p0 run t3 ; 16 t3 ret = eof ; 17 t3 say 0 ; 18 t3 say 0 ; 19 t3 end 0 ; 20 p0 run t2 ; 21 t2 ret = eof ; 22 t2 say 0 ; 23 t2 say 0 ; 24 t2 end 0 ; stop finished" stops.Finished }
{}

/// The waiting writers of a pipe that is closed get EPIPE, best first, and their items are dropped; the item in the pipe can still be read, and then comes `eof`.
#[tactic(auto, unfolding(crate::specs::Words::history_words))]
pub fn closed_with_writers()
    ensures { RunsAlone scripts.closed_with_writers "1 p0 run t1 ; 2 t1 write p 5 = ok ; 3 t1 pthread_create default w 20 = 2 ; 4 t1 pthread_create default w 30 = 3 ; 5 t1 pthread_yield = ok ; 6 p0 run t2 ; 7 t2 try 1 4 ; 8 t2 write p 20 = blocks ; 9 p0 run t3 ; 10 t3 try 1 4 ; 11 t3 write p 30 = blocks ; 12 p0 run t1 ; 13 t1 pthread_setprio 1 31 = 16 ; 14 t1 pthread_setprio 3 20 = 16 ; 15 t1 close p = ok ; 16 t1 pthread_setprio 3 16 = 20 ; 17 t1 read p = 5 ; 18 t1 say 6 ; 19 t1 read p = eof ; 20 t1 say 0 ; 21 t1 end 0 ; 22 p0 run t3 ; 23 t3 ret = EPIPE ; 24 t3 raise 1 pipe_e ; 25 t3 catch 1 1 6 ; 26 t3 say 32 ; 27 t3 endcatch 1 ; 28 t3 end 0 ; 29 p0 run t2 ; 30 t2 ret = EPIPE ; 31 t2 raise 1 pipe_e ; 32 t2 catch 1 1 6 ; 33 t2 say 32 ; 34 t2 endcatch 1 ; 35 t2 end 0 ; stop finished" stops.Finished }
{}

/// A read takes the front item, and then the best writer's item enters and that writer returns; a write is handed to a waiting reader; a read into one variable twice leaves 1 in it, at the call and at its return.
#[tactic(auto, unfolding(crate::specs::Words::history_words))]
pub fn writers_relieved()
    ensures { RunsAlone scripts.writers_relieved "1 p0 run t1 ; 2 t1 pthread_create default w 20 = 2 ; 3 t1 pthread_create default w 30 = 3 ; 4 t1 pthread_yield = ok ; 5 p0 run t2 ; 6 t2 write p 20 = ok ; 7 t2 write p 21 = blocks ; 8 p0 run t3 ; 9 t3 write p 30 = blocks ; 10 p0 run t1 ; 11 t1 pthread_setprio 1 31 = 16 ; 12 t1 pthread_setprio 3 17 = 16 ; 13 t1 read p = 20 ; 14 t1 say 20 ; 15 t1 read p = 30 ; 16 t1 say 1 ; 17 t1 read p = 21 ; 18 t1 say 21 ; 19 t1 read p = blocks ; 20 p0 run t3 ; 21 t3 ret = ok ; 22 t3 write p 31 = ok ; 23 p0 run t1 ; 24 t1 ret = 31 ; 25 t1 say 1 ; 26 t1 end 0 ; 27 p0 run t3 ; 28 t3 end 0 ; 29 p0 run t2 ; 30 t2 ret = ok ; 31 t2 end 0 ; stop finished" stops.Finished }
{}

/// Items are read in the order in which they entered, that of a relieved writer after those in the pipe; a closed pipe gives its last item and then `eof`, also into a shared variable.
#[tactic(auto, unfolding(crate::specs::Words::history_words))]
pub fn items_in_order()
    ensures { RunsAlone scripts.items_in_order "1 p0 run t1 ; 2 t1 write p 1 = ok ; 3 t1 write p 2 = ok ; 4 t1 pthread_create default w 3 = 2 ; 5 t1 pthread_yield = ok ; 6 p0 run t2 ; 7 t2 write p 3 = blocks ; 8 p0 run t1 ; 9 t1 read p = 1 ; 10 t1 read p = 2 ; 11 t1 say 3 ; 12 t1 close p = ok ; 13 t1 read p = 3 ; 14 t1 say 4 ; 15 t1 read p = eof ; 16 t1 say 0 ; 17 p0 run t2 ; 18 t2 ret = ok ; 19 t2 end 0 ; 20 p0 run t1 ; 21 t1 end 0 ; stop finished" stops.Finished }
{}
