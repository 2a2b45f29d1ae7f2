//! Lines of calls on mutexes and conditions.

ghost use Rattle.std.specs.Prelude.{[], ◌∷◌, None, Some};
ghost use Rattle.thr_examples.specs.Lines.{AreJudged};

/// Calls on mutexes and on the one that is global.
#[tactic(auto, unfolding(thr_text::specs::Computing::text_words))]
pub fn calls_on_mutexes()
    ensures mutex_init { AreJudged
        (("pthread_mutex_init m b", None) ∷ ("pthread_mutex_init m default", None)
        ∷ ("pthread_mutex_init 1 b", Some 6) ∷ ("pthread_mutex_init default b", Some 6) ∷ ("pthread_mutex_init m 1", Some 6) ∷ ("pthread_mutex_init m none", Some 6) ∷ ("pthread_mutex_init m MUTEX_FAST_NP", Some 6)
        ∷ ("pthread_mutex_init", Some 7) ∷ ("pthread_mutex_init m", Some 7) ∷ ("pthread_mutex_init m b b", Some 7)
        ∷ []) }
    ensures mutex_destroy { AreJudged
        (("pthread_mutex_destroy m", None)
        ∷ ("pthread_mutex_destroy 1", Some 6) ∷ ("pthread_mutex_destroy global", Some 6) ∷ ("pthread_mutex_destroy default", Some 6)
        ∷ ("pthread_mutex_destroy", Some 7) ∷ ("pthread_mutex_destroy m m", Some 7)
        ∷ []) }
    ensures mutex_lock { AreJudged
        (("pthread_mutex_lock m", None)
        ∷ ("pthread_mutex_lock 1", Some 6) ∷ ("pthread_mutex_lock global", Some 6) ∷ ("pthread_mutex_lock default", Some 6)
        ∷ ("pthread_mutex_lock", Some 7) ∷ ("pthread_mutex_lock m m", Some 7)
        ∷ []) }
    ensures mutex_unlock { AreJudged
        (("pthread_mutex_unlock m", None)
        ∷ ("pthread_mutex_unlock 1", Some 6) ∷ ("pthread_mutex_unlock global", Some 6) ∷ ("pthread_mutex_unlock default", Some 6)
        ∷ ("pthread_mutex_unlock", Some 7) ∷ ("pthread_mutex_unlock m m", Some 7)
        ∷ []) }
    ensures mutex_trylock { AreJudged
        (("pthread_mutex_trylock m v", None)
        ∷ ("pthread_mutex_trylock 1 v", Some 6) ∷ ("pthread_mutex_trylock global v", Some 6) ∷ ("pthread_mutex_trylock default v", Some 6) ∷ ("pthread_mutex_trylock m 1", Some 6) ∷ ("pthread_mutex_trylock m self", Some 6)
        ∷ ("pthread_mutex_trylock", Some 7) ∷ ("pthread_mutex_trylock m", Some 7) ∷ ("pthread_mutex_trylock m v v", Some 7)
        ∷ []) }
    ensures lock_global_np { AreJudged
        (("pthread_lock_global_np", None)
        ∷ ("pthread_lock_global_np m", Some 7) ∷ ("pthread_lock_global_np global", Some 7)
        ∷ []) }
    ensures unlock_global_np { AreJudged
        (("pthread_unlock_global_np", None)
        ∷ ("pthread_unlock_global_np m", Some 7) ∷ ("pthread_unlock_global_np global", Some 7)
        ∷ []) }
{}

/// Calls on conditions.
#[tactic(auto, unfolding(thr_text::specs::Computing::text_words))]
pub fn calls_on_conditions()
    ensures cond_init { AreJudged
        (("pthread_cond_init c", None)
        ∷ ("pthread_cond_init 1", Some 6) ∷ ("pthread_cond_init default", Some 6)
        ∷ ("pthread_cond_init", Some 7) ∷ ("pthread_cond_init c c", Some 7)
        ∷ []) }
    ensures cond_destroy { AreJudged
        (("pthread_cond_destroy c", None)
        ∷ ("pthread_cond_destroy 1", Some 6) ∷ ("pthread_cond_destroy default", Some 6)
        ∷ ("pthread_cond_destroy", Some 7) ∷ ("pthread_cond_destroy c c", Some 7)
        ∷ []) }
    ensures cond_signal { AreJudged
        (("pthread_cond_signal c", None)
        ∷ ("pthread_cond_signal 1", Some 6) ∷ ("pthread_cond_signal default", Some 6)
        ∷ ("pthread_cond_signal", Some 7) ∷ ("pthread_cond_signal c c", Some 7)
        ∷ []) }
    ensures cond_broadcast { AreJudged
        (("pthread_cond_broadcast c", None)
        ∷ ("pthread_cond_broadcast 1", Some 6) ∷ ("pthread_cond_broadcast default", Some 6)
        ∷ ("pthread_cond_broadcast", Some 7) ∷ ("pthread_cond_broadcast c c", Some 7)
        ∷ []) }
    ensures cond_wait { AreJudged
        (("pthread_cond_wait c m", None)
        ∷ ("pthread_cond_wait 1 m", Some 6) ∷ ("pthread_cond_wait none m", Some 6) ∷ ("pthread_cond_wait default m", Some 6) ∷ ("pthread_cond_wait c 1", Some 6) ∷ ("pthread_cond_wait c global", Some 6) ∷ ("pthread_cond_wait c default", Some 6)
        ∷ ("pthread_cond_wait", Some 7) ∷ ("pthread_cond_wait c", Some 7) ∷ ("pthread_cond_wait c m 5", Some 7)
        ∷ []) }
    ensures cond_timedwait { AreJudged
        (("pthread_cond_timedwait c m 20", None) ∷ ("pthread_cond_timedwait c m + t 5", None)
        ∷ ("pthread_cond_timedwait 1 m 20", Some 6) ∷ ("pthread_cond_timedwait none m 20", Some 6) ∷ ("pthread_cond_timedwait default m 20", Some 6) ∷ ("pthread_cond_timedwait c default 20", Some 6) ∷ ("pthread_cond_timedwait c 1 20", Some 6) ∷ ("pthread_cond_timedwait c global 20", Some 6) ∷ ("pthread_cond_timedwait c m this", Some 6)
        ∷ ("pthread_cond_timedwait", Some 7) ∷ ("pthread_cond_timedwait c", Some 7) ∷ ("pthread_cond_timedwait c m", Some 7) ∷ ("pthread_cond_timedwait c m + 5", Some 7) ∷ ("pthread_cond_timedwait c m 20 v", Some 7)
        ∷ []) }
{}
