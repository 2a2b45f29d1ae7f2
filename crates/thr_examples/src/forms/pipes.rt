//! Lines of calls on once blocks, keys and pipes.

ghost use Rattle.std.specs.Prelude.{[], ◌∷◌, None, Some};
ghost use Rattle.thr_examples.specs.Lines.{AreJudged};

/// Calls on once blocks and keys.
#[tactic(auto, unfolding(thr_text::specs::Computing::text_words))]
pub fn calls_on_once_blocks_and_keys()
    ensures once { AreJudged
        (("pthread_once o r", None)
        ∷ ("pthread_once 1 r", Some 6) ∷ ("pthread_once once r", Some 6) ∷ ("pthread_once default r", Some 6) ∷ ("pthread_once o 1", Some 6) ∷ ("pthread_once o none", Some 6)
        ∷ ("pthread_once", Some 7) ∷ ("pthread_once o", Some 7) ∷ ("pthread_once o r 0", Some 7)
        ∷ []) }
    ensures keycreate { AreJudged
        (("pthread_keycreate k r", None) ∷ ("pthread_keycreate k none", None)
        ∷ ("pthread_keycreate 1 r", Some 6) ∷ ("pthread_keycreate none r", Some 6) ∷ ("pthread_keycreate default r", Some 6) ∷ ("pthread_keycreate k 1", Some 6) ∷ ("pthread_keycreate k default", Some 6)
        ∷ ("pthread_keycreate", Some 7) ∷ ("pthread_keycreate k", Some 7) ∷ ("pthread_keycreate k r r", Some 7)
        ∷ []) }
    ensures setspecific { AreJudged
        (("pthread_setspecific k 5", None) ∷ ("pthread_setspecific k not x", None)
        ∷ ("pthread_setspecific 1 5", Some 6) ∷ ("pthread_setspecific none 5", Some 6) ∷ ("pthread_setspecific default 5", Some 6) ∷ ("pthread_setspecific k this", Some 6)
        ∷ ("pthread_setspecific", Some 7) ∷ ("pthread_setspecific k", Some 7) ∷ ("pthread_setspecific k 5 5", Some 7)
        ∷ []) }
    ensures getspecific { AreJudged
        (("pthread_getspecific k v", None)
        ∷ ("pthread_getspecific 1 v", Some 6) ∷ ("pthread_getspecific none v", Some 6) ∷ ("pthread_getspecific default v", Some 6) ∷ ("pthread_getspecific k 1", Some 6) ∷ ("pthread_getspecific k err", Some 6)
        ∷ ("pthread_getspecific", Some 7) ∷ ("pthread_getspecific k", Some 7) ∷ ("pthread_getspecific k v v", Some 7)
        ∷ []) }
{}

/// Calls on pipes.
#[tactic(auto, unfolding(thr_text::specs::Computing::text_words))]
pub fn calls_on_pipes()
    ensures read { AreJudged
        (("read p v g", None) ∷ ("read p v v", None)
        ∷ ("read 1 v g", Some 6) ∷ ("read default v g", Some 6) ∷ ("read pipe v g", Some 6) ∷ ("read p 1 g", Some 6) ∷ ("read p self g", Some 6) ∷ ("read p v 1", Some 6) ∷ ("read p v err", Some 6)
        ∷ ("read", Some 7) ∷ ("read p", Some 7) ∷ ("read p v", Some 7) ∷ ("read p v g g", Some 7)
        ∷ []) }
    ensures write { AreJudged
        (("write p 7", None) ∷ ("write p + x 1", None)
        ∷ ("write 1 7", Some 6) ∷ ("write default 7", Some 6) ∷ ("write pipe 7", Some 6) ∷ ("write p this", Some 6)
        ∷ ("write", Some 7) ∷ ("write p", Some 7) ∷ ("write p 7 7", Some 7)
        ∷ []) }
    ensures close { AreJudged
        (("close p", None)
        ∷ ("close 1", Some 6) ∷ ("close default", Some 6) ∷ ("close pipe", Some 6)
        ∷ ("close", Some 7) ∷ ("close p p", Some 7)
        ∷ []) }
{}
