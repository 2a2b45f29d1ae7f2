//! Lines of calls on attribute cells.

ghost use Rattle.std.specs.Prelude.{[], ◌∷◌, None, Some};
ghost use Rattle.thr_examples.specs.Lines.{AreJudged};

/// Calls on attribute cells.
#[tactic(auto, unfolding(thr_text::specs::Computing::text_words))]
pub fn calls_on_attributes()
    ensures attr_create { AreJudged
        (("pthread_attr_create a", None)
        ∷ ("pthread_attr_create 1", Some 6) ∷ ("pthread_attr_create default", Some 6)
        ∷ ("pthread_attr_create", Some 7) ∷ ("pthread_attr_create a a", Some 7)
        ∷ []) }
    ensures attr_delete { AreJudged
        (("pthread_attr_delete a", None)
        ∷ ("pthread_attr_delete 1", Some 6) ∷ ("pthread_attr_delete default", Some 6)
        ∷ ("pthread_attr_delete", Some 7) ∷ ("pthread_attr_delete a a", Some 7)
        ∷ []) }
    ensures attr_setsched { AreJudged
        (("pthread_attr_setsched a SCHED_FIFO", None) ∷ ("pthread_attr_setsched a SCHED_RR", None) ∷ ("pthread_attr_setsched a SCHED_FG_NP", None) ∷ ("pthread_attr_setsched a SCHED_BG_NP", None)
        ∷ ("pthread_attr_setsched 1 SCHED_FIFO", Some 6) ∷ ("pthread_attr_setsched default SCHED_FIFO", Some 6) ∷ ("pthread_attr_setsched a SCHED_OTHER", Some 6) ∷ ("pthread_attr_setsched a 0", Some 6) ∷ ("pthread_attr_setsched a CANCEL_ON", Some 6)
        ∷ ("pthread_attr_setsched", Some 7) ∷ ("pthread_attr_setsched a", Some 7) ∷ ("pthread_attr_setsched a SCHED_RR 0", Some 7)
        ∷ []) }
    ensures attr_setprio { AreJudged
        (("pthread_attr_setprio a 16", None) ∷ ("pthread_attr_setprio a + x 1", None)
        ∷ ("pthread_attr_setprio 1 16", Some 6) ∷ ("pthread_attr_setprio default 16", Some 6) ∷ ("pthread_attr_setprio a this", Some 6)
        ∷ ("pthread_attr_setprio", Some 7) ∷ ("pthread_attr_setprio a", Some 7) ∷ ("pthread_attr_setprio a 16 16", Some 7)
        ∷ []) }
    ensures attr_setstacksize { AreJudged
        (("pthread_attr_setstacksize a 16", None) ∷ ("pthread_attr_setstacksize a + x 1", None)
        ∷ ("pthread_attr_setstacksize 1 16", Some 6) ∷ ("pthread_attr_setstacksize default 16", Some 6) ∷ ("pthread_attr_setstacksize a this", Some 6)
        ∷ ("pthread_attr_setstacksize", Some 7) ∷ ("pthread_attr_setstacksize a", Some 7) ∷ ("pthread_attr_setstacksize a 16 16", Some 7)
        ∷ []) }
    ensures attr_setinheritsched { AreJudged
        (("pthread_attr_setinheritsched a PTHREAD_INHERIT_SCHED", None) ∷ ("pthread_attr_setinheritsched a PTHREAD_DEFAULT_SCHED", None)
        ∷ ("pthread_attr_setinheritsched 1 PTHREAD_INHERIT_SCHED", Some 6) ∷ ("pthread_attr_setinheritsched default PTHREAD_INHERIT_SCHED", Some 6) ∷ ("pthread_attr_setinheritsched a 1", Some 6) ∷ ("pthread_attr_setinheritsched a default", Some 6) ∷ ("pthread_attr_setinheritsched a SCHED_RR", Some 6)
        ∷ ("pthread_attr_setinheritsched", Some 7) ∷ ("pthread_attr_setinheritsched a", Some 7) ∷ ("pthread_attr_setinheritsched a PTHREAD_DEFAULT_SCHED 0", Some 7)
        ∷ []) }
{}

/// Calls on mutex attribute cells.
#[tactic(auto, unfolding(thr_text::specs::Computing::text_words))]
pub fn calls_on_mutex_attributes()
    ensures mutexattr_create { AreJudged
        (("pthread_mutexattr_create b", None)
        ∷ ("pthread_mutexattr_create 1", Some 6) ∷ ("pthread_mutexattr_create default", Some 6)
        ∷ ("pthread_mutexattr_create", Some 7) ∷ ("pthread_mutexattr_create b b", Some 7)
        ∷ []) }
    ensures mutexattr_delete { AreJudged
        (("pthread_mutexattr_delete b", None)
        ∷ ("pthread_mutexattr_delete 1", Some 6) ∷ ("pthread_mutexattr_delete default", Some 6)
        ∷ ("pthread_mutexattr_delete", Some 7) ∷ ("pthread_mutexattr_delete b b", Some 7)
        ∷ []) }
    ensures mutexattr_setkind_np { AreJudged
        (("pthread_mutexattr_setkind_np b MUTEX_FAST_NP", None) ∷ ("pthread_mutexattr_setkind_np b MUTEX_RECURSIVE_NP", None) ∷ ("pthread_mutexattr_setkind_np b MUTEX_NONRECURSIVE_NP", None)
        ∷ ("pthread_mutexattr_setkind_np 1 MUTEX_FAST_NP", Some 6) ∷ ("pthread_mutexattr_setkind_np default MUTEX_FAST_NP", Some 6) ∷ ("pthread_mutexattr_setkind_np b fast", Some 6) ∷ ("pthread_mutexattr_setkind_np b 0", Some 6)
        ∷ ("pthread_mutexattr_setkind_np", Some 7) ∷ ("pthread_mutexattr_setkind_np b", Some 7) ∷ ("pthread_mutexattr_setkind_np b MUTEX_FAST_NP b", Some 7)
        ∷ []) }
{}
