//! Lines of declarations.

ghost use Rattle.std.specs.Prelude.{[], ◌∷◌, None, Some};
ghost use Rattle.thr_examples.specs.Lines.{AreJudged};

/// Settings, and names with a number.
#[tactic(auto, unfolding(thr_text::specs::Computing::text_words))]
pub fn settings_and_numbers()
    ensures interface { AreJudged
        (("interface exc", None) ∷ ("interface status", None)
        ∷ ("interface 1", Some 6) ∷ ("interface both", Some 6) ∷ ("interface default", Some 6)
        ∷ ("interface", Some 7) ∷ ("interface exc status", Some 7)
        ∷ []) }
    ensures limit { AreJudged
        (("limit 5", None) ∷ ("limit -1", None)
        ∷ ("limit n", Some 6) ∷ ("limit exc", Some 6)
        ∷ ("limit", Some 7) ∷ ("limit 5 5", Some 7)
        ∷ []) }
    ensures shared { AreJudged
        (("shared s 0", None) ∷ ("shared s -4", None)
        ∷ ("shared 3 0", Some 6) ∷ ("shared shared 0", Some 6) ∷ ("shared s t", Some 6)
        ∷ ("shared", Some 7) ∷ ("shared s", Some 7) ∷ ("shared s 0 0", Some 7)
        ∷ []) }
    ensures status { AreJudged
        (("status x 5", None)
        ∷ ("status 5 5", Some 6) ∷ ("status exc 5", Some 6) ∷ ("status x y", Some 6)
        ∷ ("status", Some 7) ∷ ("status x", Some 7) ∷ ("status x 5 5", Some 7)
        ∷ []) }
    ensures pipe { AreJudged
        (("pipe p 4", None)
        ∷ ("pipe 4 4", Some 6) ∷ ("pipe read 4", Some 6) ∷ ("pipe p q", Some 6)
        ∷ ("pipe", Some 7) ∷ ("pipe p", Some 7) ∷ ("pipe p 4 4", Some 7)
        ∷ []) }
{}

/// Names of objects, of a routine and its parameter, and of locals. A built-in name has the form of a name, a
/// reserved word hasn't.
#[tactic(auto, unfolding(thr_text::specs::Computing::text_words))]
pub fn declared_names()
    ensures exception { AreJudged
        (("exception e", None) ∷ ("exception cancel_e", None)
        ∷ ("exception 3", Some 6) ∷ ("exception this", Some 6)
        ∷ ("exception", Some 7) ∷ ("exception e f", Some 7)
        ∷ []) }
    ensures mutex { AreJudged
        (("mutex m", None) ∷ ("mutex main", None)
        ∷ ("mutex 1", Some 6) ∷ ("mutex mutex", Some 6)
        ∷ ("mutex", Some 7) ∷ ("mutex m m", Some 7)
        ∷ []) }
    ensures mutexattr { AreJudged
        (("mutexattr b", None)
        ∷ ("mutexattr 1", Some 6) ∷ ("mutexattr default", Some 6)
        ∷ ("mutexattr", Some 7) ∷ ("mutexattr b b", Some 7)
        ∷ []) }
    ensures cond { AreJudged
        (("cond c", None)
        ∷ ("cond 1", Some 6) ∷ ("cond SCHED_RR", Some 6)
        ∷ ("cond", Some 7) ∷ ("cond c c", Some 7)
        ∷ []) }
    ensures attr { AreJudged
        (("attr a", None)
        ∷ ("attr 1", Some 6) ∷ ("attr CANCEL_ON", Some 6)
        ∷ ("attr", Some 7) ∷ ("attr a a", Some 7)
        ∷ []) }
    ensures key { AreJudged
        (("key k", None)
        ∷ ("key 1", Some 6) ∷ ("key none", Some 6)
        ∷ ("key", Some 7) ∷ ("key k k", Some 7)
        ∷ []) }
    ensures once { AreJudged
        (("once o", None)
        ∷ ("once 1", Some 6) ∷ ("once once", Some 6)
        ∷ ("once", Some 7) ∷ ("once o o", Some 7)
        ∷ []) }
    ensures routine { AreJudged
        (("routine main a", None)
        ∷ ("routine 1 a", Some 6) ∷ ("routine end a", Some 6) ∷ ("routine main 1", Some 6) ∷ ("routine main local", Some 6)
        ∷ ("routine", Some 7) ∷ ("routine main", Some 7) ∷ ("routine main a b", Some 7)
        ∷ []) }
    ensures local { AreJudged
        (("local v", None) ∷ ("local abcdefghijklmnopqrstuvwx", None)
        ∷ ("local 5", Some 6) ∷ ("local global", Some 6) ∷ ("local abcdefghijklmnopqrstuvwxy", Some 6)
        ∷ ("local", Some 7) ∷ ("local v w", Some 7)
        ∷ []) }
{}

/// Each reserved word, which no line declares, and words that look alike and are free.
#[tactic(auto, unfolding(thr_text::specs::Computing::text_words))]
pub fn words_that_are_no_names()
    ensures declarations { AreJudged
        (("local interface", Some 6) ∷ ("local limit", Some 6) ∷ ("local shared", Some 6) ∷ ("local exception", Some 6) ∷ ("local status", Some 6) ∷ ("local mutex", Some 6) ∷ ("local mutexattr", Some 6) ∷ ("local cond", Some 6) ∷ ("local attr", Some 6) ∷ ("local key", Some 6) ∷ ("local once", Some 6) ∷ ("local pipe", Some 6) ∷ ("local routine", Some 6) ∷ ("local local", Some 6)
        ∷ []) }
    ensures statements { AreJudged
        (("local set", Some 6) ∷ ("local say", Some 6) ∷ ("local if", Some 6) ∷ ("local else", Some 6) ∷ ("local while", Some 6) ∷ ("local try", Some 6) ∷ ("local catch", Some 6) ∷ ("local catch_all", Some 6) ∷ ("local finally", Some 6) ∷ ("local endtry", Some 6) ∷ ("local raise", Some 6) ∷ ("local reraise", Some 6) ∷ ("local call", Some 6) ∷ ("local return", Some 6) ∷ ("local pthread_exit", Some 6) ∷ ("local end", Some 6)
        ∷ []) }
    ensures expressions { AreJudged
        (("local self", Some 6) ∷ ("local err", Some 6) ∷ ("local and", Some 6) ∷ ("local or", Some 6) ∷ ("local not", Some 6) ∷ ("local exc_get_status", Some 6) ∷ ("local exc_matches", Some 6) ∷ ("local this", Some 6)
        ∷ []) }
    ensures attributes { AreJudged
        (("local pthread_attr_create", Some 6) ∷ ("local pthread_attr_delete", Some 6) ∷ ("local pthread_attr_setsched", Some 6) ∷ ("local pthread_attr_setprio", Some 6) ∷ ("local pthread_attr_setinheritsched", Some 6) ∷ ("local pthread_attr_setstacksize", Some 6) ∷ ("local pthread_mutexattr_create", Some 6) ∷ ("local pthread_mutexattr_setkind_np", Some 6) ∷ ("local pthread_mutexattr_delete", Some 6)
        ∷ []) }
    ensures threads { AreJudged
        (("local pthread_create", Some 6) ∷ ("local pthread_join", Some 6) ∷ ("local pthread_detach", Some 6) ∷ ("local pthread_yield", Some 6) ∷ ("local pthread_cancel", Some 6) ∷ ("local pthread_testcancel", Some 6) ∷ ("local pthread_setcancel", Some 6) ∷ ("local pthread_setasynccancel", Some 6) ∷ ("local pthread_setprio", Some 6) ∷ ("local pthread_getprio", Some 6) ∷ ("local pthread_setscheduler", Some 6) ∷ ("local pthread_getscheduler", Some 6) ∷ ("local pthread_delay_np", Some 6) ∷ ("local pthread_get_expiration_np", Some 6)
        ∷ []) }
    ensures mutexes { AreJudged
        (("local pthread_mutex_init", Some 6) ∷ ("local pthread_mutex_destroy", Some 6) ∷ ("local pthread_mutex_lock", Some 6) ∷ ("local pthread_mutex_trylock", Some 6) ∷ ("local pthread_mutex_unlock", Some 6) ∷ ("local pthread_lock_global_np", Some 6) ∷ ("local pthread_unlock_global_np", Some 6)
        ∷ []) }
    ensures conditions { AreJudged
        (("local pthread_cond_init", Some 6) ∷ ("local pthread_cond_destroy", Some 6) ∷ ("local pthread_cond_wait", Some 6) ∷ ("local pthread_cond_timedwait", Some 6) ∷ ("local pthread_cond_signal", Some 6) ∷ ("local pthread_cond_broadcast", Some 6)
        ∷ []) }
    ensures others { AreJudged
        (("local pthread_once", Some 6) ∷ ("local pthread_keycreate", Some 6) ∷ ("local pthread_setspecific", Some 6) ∷ ("local pthread_getspecific", Some 6) ∷ ("local read", Some 6) ∷ ("local write", Some 6) ∷ ("local close", Some 6)
        ∷ []) }
    ensures choices { AreJudged
        (("local SCHED_FIFO", Some 6) ∷ ("local SCHED_RR", Some 6) ∷ ("local SCHED_FG_NP", Some 6) ∷ ("local SCHED_BG_NP", Some 6) ∷ ("local PTHREAD_INHERIT_SCHED", Some 6) ∷ ("local PTHREAD_DEFAULT_SCHED", Some 6) ∷ ("local CANCEL_ON", Some 6) ∷ ("local CANCEL_OFF", Some 6) ∷ ("local MUTEX_FAST_NP", Some 6) ∷ ("local MUTEX_RECURSIVE_NP", Some 6) ∷ ("local MUTEX_NONRECURSIVE_NP", Some 6) ∷ ("local default", Some 6) ∷ ("local none", Some 6)
        ∷ []) }
    ensures first_line_and_more { AreJudged
        (("local dcethr", Some 6) ∷ ("local exc", Some 6) ∷ ("local global", Some 6)
        ∷ []) }
    ensures free { AreJudged
        (("local main", None) ∷ ("local ok", None) ∷ ("local eof", None) ∷ ("local blocks", None) ∷ ("local EPERM", None) ∷ ("local SCHED_OTHER", None) ∷ ("local threads", None) ∷ ("local exc_set_status", None) ∷ ("local exception_init", None) ∷ ("local Self", None) ∷ ("local ENDTRY", None) ∷ ("local _end", None) ∷ ("local thread", None) ∷ ("local cancel_e", None)
        ∷ []) }
{}
