//! Worked histories of mutexes and the global lock.

ghost use Rattle.thr_values.specs.declared.event.Stop.TheVariants as stops;
ghost use Rattle.thr_histories.specs.Runs.{RunsAlone};
ghost use Rattle.thr_examples.specs.Scripts as scripts;

/// A fast mutex that its owner locks again.
#[tactic(auto, unfolding(crate::specs::Words::history_words))]
pub fn fast_mutex_twice()
    ensures { RunsAlone scripts.fast_mutex_twice "1 p0 run t1 ; 2 t1 pthread_mutex_init m default = ok ; 3 t1 pthread_mutex_lock m = ok ; 4 t1 pthread_mutex_lock m = blocks ; stop deadlock 1 t1" (stops.Deadlock 1 (record { 0 = 1 })) }
{}

/// A nonrecursive mutex that its owner locks again.
#[tactic(auto, unfolding(crate::specs::Words::history_words))]
pub fn nonrecursive_mutex_twice()
    ensures { RunsAlone scripts.nonrecursive_mutex_twice "1 p0 run t1 ; 2 t1 pthread_mutexattr_create k = ok ; 3 t1 pthread_mutexattr_setkind_np k MUTEX_NONRECURSIVE_NP = ok ; 4 t1 pthread_mutex_init m k = ok ; 5 t1 pthread_mutex_lock m = ok ; 6 t1 pthread_mutex_lock m = EDEADLK ; 7 t1 raise 1 use_error_e ; 8 t1 bottom 1 -2 ; 9 t1 end -2 ; stop finished" stops.Finished }
{}

/// A recursive mutex that is locked twice and unlocked three times.
#[tactic(auto, unfolding(crate::specs::Words::history_words))]
pub fn recursive_mutex_twice()
    ensures { RunsAlone scripts.recursive_mutex_twice "1 p0 run t1 ; 2 t1 pthread_mutexattr_create k = ok ; 3 t1 pthread_mutexattr_setkind_np k MUTEX_RECURSIVE_NP = ok ; 4 t1 pthread_mutex_init m k = ok ; 5 t1 pthread_mutex_lock m = ok ; 6 t1 pthread_mutex_lock m = ok ; 7 t1 pthread_mutex_unlock m = ok ; 8 t1 pthread_mutex_unlock m = ok ; 9 t1 pthread_mutex_unlock m = EPERM ; 10 t1 raise 1 use_error_e ; 11 t1 bottom 1 -2 ; 12 t1 end -2 ; stop finished" stops.Finished }
{}

/// An error that raises nothing, in the interface `status`.
#[tactic(auto, unfolding(crate::specs::Words::history_words))]
pub fn error_in_status()
    ensures { RunsAlone scripts.error_in_status "1 p0 run t1 ; 2 t1 pthread_mutex_init m default = ok ; 3 t1 pthread_mutex_unlock m = EPERM ; 4 t1 say 1 ; 5 t1 end 0 ; stop finished" stops.Finished }
{}

/// The same error raises in the interface `exc`.
#[tactic(auto, unfolding(crate::specs::Words::history_words))]
pub fn error_in_exc()
    ensures { RunsAlone scripts.error_in_exc "1 p0 run t1 ; 2 t1 pthread_mutex_init m default = ok ; 3 t1 pthread_mutex_unlock m = EPERM ; 4 t1 raise 1 use_error_e ; 5 t1 bottom 1 -2 ; 6 t1 end -2 ; stop finished" stops.Finished }
{}

/// The global lock is unlocked once too often.
#[tactic(auto, unfolding(crate::specs::Words::history_words))]
pub fn global_lock()
    ensures { RunsAlone scripts.global_lock "1 p0 run t1 ; 2 t1 pthread_lock_global_np = ok ; 3 t1 pthread_lock_global_np = ok ; 4 t1 pthread_unlock_global_np = ok ; 5 t1 pthread_unlock_global_np = ok ; 6 t1 pthread_unlock_global_np = EPERM ; 7 t1 say 1 ; 8 t1 end 0 ; stop finished" stops.Finished }
{}

/// Two threads lock two mutexes in the other order.
#[tactic(auto, unfolding(crate::specs::Words::history_words))]
pub fn deadlock_of_two()
    ensures { RunsAlone scripts.deadlock_of_two "1 p0 run t1 ; 2 t1 pthread_mutex_init m default = ok ; 3 t1 pthread_mutex_init n default = ok ; 4 t1 pthread_create default w 0 = 2 ; 5 t1 pthread_mutex_lock m = ok ; 6 t1 pthread_yield = ok ; 7 p0 run t2 ; 8 t2 pthread_mutex_lock n = ok ; 9 t2 pthread_mutex_lock m = blocks ; 10 p0 run t1 ; 11 t1 pthread_mutex_lock n = blocks ; stop deadlock 2 t1" (stops.Deadlock 2 (record { 0 = 1 })) }
{}
