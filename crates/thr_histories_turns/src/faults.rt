//! Worked histories of faults of expressions and errors of calls.

ghost use Rattle.thr_values.specs.declared.event.Stop.TheVariants as stops;
ghost use Rattle.thr_histories.specs.Runs.{RunsAlone};
ghost use Rattle.thr_histories_turns.specs.MachineScripts as scripts;

/// A fault in a shared statement writes its `raise` line alone, one in a quiet statement `pause` after it where both cancelabilities are on; of several faults the first from the left is raised; the interface `status` raises faults too, and `err` stays.
#[tactic(auto, unfolding(crate::specs::Words::history_words))]
pub fn faults_of_expressions()
    ensures { RunsAlone scripts.faults_of_expressions "1 p0 run t1 ; 2 t1 pthread_setasynccancel CANCEL_ON = 0 ; 3 t1 pthread_detach 9 = ESRCH ; 4 t1 try 1 7 ; 5 t1 pause ; 6 t1 raise 1 intdiv_e ; 7 t1 catch 1 1 9 ; 8 t1 say 1 ; 9 t1 endcatch 1 ; 10 t1 pause ; 11 t1 try 2 12 ; 12 t1 pause ; 13 t1 raise 2 intdiv_e ; 14 t1 pause ; 15 t1 catch 2 2 16 ; 16 t1 say 4 ; 17 t1 endcatch 2 ; 18 t1 pause ; 19 t1 try 3 19 ; 20 t1 pause ; 21 t1 raise 3 intovf_e ; 22 t1 pause ; 23 t1 catch 3 3 23 ; 24 t1 say 3 ; 25 t1 endcatch 3 ; 26 t1 pause ; 27 t1 pause ; 28 t1 end 0 ; stop finished" stops.Finished }
{}

/// At a point a cancel is delivered before the expressions are evaluated; a fault of an expression comes before any reply and writes no call line; of several errors the first from the left is the reply.
#[tactic(auto, unfolding(crate::specs::Words::history_words))]
pub fn faults_before_replies()
    ensures { RunsAlone scripts.faults_before_replies "1 p0 run t1 ; 2 t1 pthread_cancel 1 = pending ; 3 t1 try 1 4 ; 4 t1 deliver 1 5 ; 5 t1 catch 1 1 6 ; 6 t1 try 2 7 ; 7 t1 raise 2 intdiv_e ; 8 t1 catch 2 2 9 ; 9 t1 say 0 ; 10 t1 endcatch 2 ; 11 t1 endcatch 1 ; 12 t1 pthread_setprio 7 32 = ESRCH ; 13 t1 raise 3 existence_e ; 14 t1 bottom 3 -2 ; 15 t1 end -2 ; stop finished" stops.Finished }
{}

/// `err` follows each reply: an error's number, and 0 after `ok`, a number or `eof`. In the interface `status` no error raises.
#[tactic(auto, unfolding(crate::specs::Words::history_words))]
pub fn errors_in_status()
    ensures { RunsAlone scripts.errors_in_status "1 p0 run t1 ; 2 t1 pthread_mutex_init m default = ok ; 3 t1 pthread_mutex_init m default = EBUSY ; 4 t1 say 16 ; 5 t1 pthread_cond_wait c m = EINVAL ; 6 t1 say 22 ; 7 t1 pthread_cond_init c = ok ; 8 t1 pthread_cond_wait c m = EPERM ; 9 t1 say 1 ; 10 t1 close p = ok ; 11 t1 say 0 ; 12 t1 write p 1 = EPIPE ; 13 t1 say 32 ; 14 t1 close p = EINVAL ; 15 t1 read p = eof ; 16 t1 say 0 ; 17 t1 pthread_delay_np -1 = EINVAL ; 18 t1 pthread_setprio 1 32 = EINVAL ; 19 t1 pthread_setprio 7 32 = ESRCH ; 20 t1 say 3 ; 21 t1 pthread_getprio 1 = 16 ; 22 t1 say 16 ; 23 t1 end 0 ; stop finished" stops.Finished }
{}

/// A delay of 0 is `ok` at once; a delay or an expiration that is negative or ends past the greatest number is EINVAL and leaves the variable; the clock can move to the greatest number.
#[tactic(auto, unfolding(crate::specs::Words::history_words))]
pub fn times_at_the_bounds()
    ensures { RunsAlone scripts.times_at_the_bounds "1 p0 run t1 ; 2 t1 pthread_delay_np 0 = ok ; 3 t1 pthread_delay_np 5 = blocks ; 4 clock 5 ; 5 p0 run t1 ; 6 t1 ret = ok ; 7 t1 pthread_delay_np 9223372036854775803 = EINVAL ; 8 t1 say 22 ; 9 t1 pthread_get_expiration_np 9223372036854775803 = EINVAL ; 10 t1 say 0 ; 11 t1 pthread_get_expiration_np 9223372036854775802 = 9223372036854775807 ; 12 t1 say 9223372036854775807 ; 13 t1 pthread_get_expiration_np -1 = EINVAL ; 14 t1 pthread_delay_np 9223372036854775802 = blocks ; 15 clock 9223372036854775807 ; 16 p0 run t1 ; 17 t1 ret = ok ; 18 t1 pthread_delay_np 1 = EINVAL ; 19 t1 pthread_get_expiration_np 0 = 9223372036854775807 ; 20 t1 end 0 ; stop finished" stops.Finished }
{}

/// Replies of mutexes and their attribute cells: EINVAL of what isn't made, EBUSY of what is made or owned; `trylock` is 1 where a lock would be `ok`, again by the owner of a recursive mutex, and else 0. The turn in which the second slice of the maker runs out is the create, so the new thread runs next.
#[tactic(auto, unfolding(crate::specs::Words::history_words))]
pub fn mutex_replies()
    ensures { RunsAlone scripts.mutex_replies "1 p0 run t1 ; 2 t1 pthread_mutexattr_setkind_np b MUTEX_RECURSIVE_NP = EINVAL ; 3 t1 pthread_mutex_init m b = EINVAL ; 4 t1 pthread_mutexattr_create b = ok ; 5 t1 pthread_mutexattr_create b = EBUSY ; 6 t1 pthread_mutexattr_setkind_np b MUTEX_RECURSIVE_NP = ok ; 7 t1 pthread_mutex_init m b = ok ; 8 t1 pthread_mutexattr_delete b = ok ; 9 t1 pthread_mutexattr_delete b = EINVAL ; 10 t1 pthread_mutex_trylock n = EINVAL ; 11 t1 pthread_mutex_init n default = ok ; 12 t1 pthread_mutex_trylock m = 1 ; 13 t1 pthread_mutex_trylock m = 1 ; 14 t1 pthread_mutex_trylock n = 1 ; 15 t1 pthread_mutex_trylock n = 0 ; 16 t1 say 0 ; 17 t1 pthread_create default w 5 = 2 ; 18 p0 run t2 ; 19 t2 pthread_mutex_trylock m = 0 ; 20 t2 say 0 ; 21 t2 end 0 ; 22 p0 run t1 ; 23 t1 pthread_mutex_unlock m = ok ; 24 t1 pthread_mutex_destroy m = EBUSY ; 25 t1 pthread_mutex_unlock m = ok ; 26 t1 pthread_mutex_destroy m = ok ; 27 t1 pthread_mutex_unlock m = EINVAL ; 28 t1 end 0 ; stop finished" stops.Finished }
{}
