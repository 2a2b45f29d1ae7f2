//! Lines of calls on threads.

ghost use Rattle.std.specs.Prelude.{[], ◌∷◌, None, Some};
ghost use Rattle.thr_examples.specs.Lines.{AreJudged};

/// Calls that make, join, detach and cancel threads.
#[tactic(auto, unfolding(thr_text::specs::Computing::text_words))]
pub fn calls_on_threads()
    ensures create { AreJudged
        (("pthread_create v a r 0", None) ∷ ("pthread_create v default r + 1 x", None)
        ∷ ("pthread_create 1 a r 0", Some 6) ∷ ("pthread_create default a r 0", Some 6) ∷ ("pthread_create v 1 r 0", Some 6) ∷ ("pthread_create v none r 0", Some 6) ∷ ("pthread_create v a 1 0", Some 6) ∷ ("pthread_create v a none 0", Some 6) ∷ ("pthread_create v a r default", Some 6)
        ∷ ("pthread_create", Some 7) ∷ ("pthread_create v", Some 7) ∷ ("pthread_create v a", Some 7) ∷ ("pthread_create v a r", Some 7) ∷ ("pthread_create v a r + 1", Some 7) ∷ ("pthread_create v a r 0 0", Some 7)
        ∷ []) }
    ensures join { AreJudged
        (("pthread_join t v", None) ∷ ("pthread_join 2 v", None) ∷ ("pthread_join self v", None)
        ∷ ("pthread_join this v", Some 6) ∷ ("pthread_join t 2", Some 6) ∷ ("pthread_join t self", Some 6)
        ∷ ("pthread_join", Some 7) ∷ ("pthread_join t", Some 7) ∷ ("pthread_join t v v", Some 7)
        ∷ []) }
    ensures detach { AreJudged
        (("pthread_detach t", None) ∷ ("pthread_detach 2", None)
        ∷ ("pthread_detach none", Some 6)
        ∷ ("pthread_detach", Some 7) ∷ ("pthread_detach t v", Some 7)
        ∷ []) }
    ensures yield_line { AreJudged
        (("pthread_yield", None)
        ∷ ("pthread_yield 1", Some 7) ∷ ("pthread_yield t", Some 7)
        ∷ []) }
    ensures cancel { AreJudged
        (("pthread_cancel + t 1", None)
        ∷ ("pthread_cancel CANCEL_ON", Some 6)
        ∷ ("pthread_cancel", Some 7) ∷ ("pthread_cancel t v", Some 7)
        ∷ []) }
    ensures testcancel { AreJudged
        (("pthread_testcancel", None)
        ∷ ("pthread_testcancel 1", Some 7) ∷ ("pthread_testcancel v", Some 7)
        ∷ []) }
    ensures setcancel { AreJudged
        (("pthread_setcancel CANCEL_ON v", None) ∷ ("pthread_setcancel CANCEL_OFF v", None)
        ∷ ("pthread_setcancel 1 v", Some 6) ∷ ("pthread_setcancel v v", Some 6) ∷ ("pthread_setcancel on v", Some 6) ∷ ("pthread_setcancel CANCEL_ON 1", Some 6) ∷ ("pthread_setcancel CANCEL_OFF err", Some 6)
        ∷ ("pthread_setcancel", Some 7) ∷ ("pthread_setcancel CANCEL_ON", Some 7) ∷ ("pthread_setcancel CANCEL_ON v v", Some 7)
        ∷ []) }
    ensures setasynccancel { AreJudged
        (("pthread_setasynccancel CANCEL_ON v", None) ∷ ("pthread_setasynccancel CANCEL_OFF v", None)
        ∷ ("pthread_setasynccancel 1 v", Some 6) ∷ ("pthread_setasynccancel v v", Some 6) ∷ ("pthread_setasynccancel on v", Some 6) ∷ ("pthread_setasynccancel CANCEL_ON 1", Some 6) ∷ ("pthread_setasynccancel CANCEL_OFF err", Some 6)
        ∷ ("pthread_setasynccancel", Some 7) ∷ ("pthread_setasynccancel CANCEL_ON", Some 7) ∷ ("pthread_setasynccancel CANCEL_ON v v", Some 7)
        ∷ []) }
{}

/// Calls on priorities, policies and the clock.
#[tactic(auto, unfolding(thr_text::specs::Computing::text_words))]
pub fn calls_on_ranks_and_the_clock()
    ensures setprio { AreJudged
        (("pthread_setprio t 16 v", None) ∷ ("pthread_setprio + t 1 - p 1 v", None)
        ∷ ("pthread_setprio this 16 v", Some 6) ∷ ("pthread_setprio t this v", Some 6) ∷ ("pthread_setprio t 16 16", Some 6) ∷ ("pthread_setprio t 16 err", Some 6)
        ∷ ("pthread_setprio", Some 7) ∷ ("pthread_setprio t", Some 7) ∷ ("pthread_setprio t 16", Some 7) ∷ ("pthread_setprio t 16 v v", Some 7)
        ∷ []) }
    ensures getprio { AreJudged
        (("pthread_getprio t v", None) ∷ ("pthread_getprio self v", None)
        ∷ ("pthread_getprio default v", Some 6) ∷ ("pthread_getprio t 1", Some 6)
        ∷ ("pthread_getprio", Some 7) ∷ ("pthread_getprio t", Some 7) ∷ ("pthread_getprio t v v", Some 7)
        ∷ []) }
    ensures setscheduler { AreJudged
        (("pthread_setscheduler t SCHED_FIFO 16 v", None) ∷ ("pthread_setscheduler t SCHED_RR 16 v", None) ∷ ("pthread_setscheduler t SCHED_FG_NP 16 v", None) ∷ ("pthread_setscheduler 2 SCHED_BG_NP + p 1 v", None)
        ∷ ("pthread_setscheduler this SCHED_RR 16 v", Some 6) ∷ ("pthread_setscheduler t 1 16 v", Some 6) ∷ ("pthread_setscheduler t p 16 v", Some 6) ∷ ("pthread_setscheduler t SCHED_OTHER 16 v", Some 6) ∷ ("pthread_setscheduler t SCHED_RR this v", Some 6) ∷ ("pthread_setscheduler t SCHED_RR 16 16", Some 6)
        ∷ ("pthread_setscheduler", Some 7) ∷ ("pthread_setscheduler t", Some 7) ∷ ("pthread_setscheduler t SCHED_RR", Some 7) ∷ ("pthread_setscheduler t SCHED_RR 16", Some 7) ∷ ("pthread_setscheduler t SCHED_RR 16 v v", Some 7)
        ∷ []) }
    ensures getscheduler { AreJudged
        (("pthread_getscheduler t v", None) ∷ ("pthread_getscheduler 2 v", None)
        ∷ ("pthread_getscheduler SCHED_RR v", Some 6) ∷ ("pthread_getscheduler t 1", Some 6)
        ∷ ("pthread_getscheduler", Some 7) ∷ ("pthread_getscheduler t", Some 7) ∷ ("pthread_getscheduler t v v", Some 7)
        ∷ []) }
    ensures delay_np { AreJudged
        (("pthread_delay_np 5", None)
        ∷ ("pthread_delay_np this", Some 6)
        ∷ ("pthread_delay_np", Some 7) ∷ ("pthread_delay_np 5 v", Some 7)
        ∷ []) }
    ensures get_expiration_np { AreJudged
        (("pthread_get_expiration_np 5 v", None)
        ∷ ("pthread_get_expiration_np this v", Some 6) ∷ ("pthread_get_expiration_np 5 5", Some 6)
        ∷ ("pthread_get_expiration_np", Some 7) ∷ ("pthread_get_expiration_np 5", Some 7) ∷ ("pthread_get_expiration_np 5 v v", Some 7)
        ∷ []) }
{}
