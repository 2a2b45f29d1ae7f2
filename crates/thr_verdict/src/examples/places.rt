//! For each call what its places take, of arguments of every form.

ghost use Rattle.std.specs.Prelude.{◌≡◌, ◌∷◌, [], ◌++◌, map, length, true, false};
ghost use Rattle.thr_values.specs.declared.call.Arg.TheVariants as arg;
ghost use Rattle.thr_values.specs.declared.call.CallWord.TheVariants as call;
ghost use Rattle.thr_text.specs.Journals.{fixed_words};
ghost use Rattle.thr_verdict.specs.Places.{have_their_form};
ghost use Rattle.thr_verdict.specs.Samples.{AreTaken, a_cond, a_key, a_mutex, a_mutexattr, a_number, a_once, a_pipe, a_routine, an_attr, firsts, four_words, of_each_kind, the_word, three_words, two_words};

/// Attribute cells.
#[tactic(auto, unfolding(crate::specs::Computing::verdict_words))]
pub fn attribute_calls()
    ensures { AreTaken
        ((call.AttrCreate, an_attr ∷ [])
        ∷ (call.AttrDelete, an_attr ∷ [])
        ∷ (call.AttrSetsched, an_attr ∷ four_words ∷ [])
        ∷ (call.AttrSetprio, an_attr ∷ a_number ∷ [])
        ∷ (call.AttrSetinheritsched, an_attr ∷ two_words ∷ [])
        ∷ (call.AttrSetstacksize, an_attr ∷ a_number ∷ [])
        ∷ (call.MutexattrCreate, a_mutexattr ∷ [])
        ∷ (call.MutexattrSetkindNp, a_mutexattr ∷ three_words ∷ [])
        ∷ (call.MutexattrDelete, a_mutexattr ∷ [])
        ∷ []) }
{}

/// Threads, cancels and times.
#[tactic(auto, unfolding(crate::specs::Computing::verdict_words))]
pub fn thread_calls()
    ensures { AreTaken
        ((call.Create, (an_attr ++ the_word) ∷ a_routine ∷ a_number ∷ [])
        ∷ (call.Join, a_number ∷ [])
        ∷ (call.Detach, a_number ∷ [])
        ∷ (call.Yield, [])
        ∷ (call.Cancel, a_number ∷ [])
        ∷ (call.Testcancel, [])
        ∷ (call.Setcancel, two_words ∷ [])
        ∷ (call.Setasynccancel, two_words ∷ [])
        ∷ (call.Setprio, a_number ∷ a_number ∷ [])
        ∷ (call.Getprio, a_number ∷ [])
        ∷ (call.Setscheduler, a_number ∷ four_words ∷ a_number ∷ [])
        ∷ (call.Getscheduler, a_number ∷ [])
        ∷ (call.DelayNp, a_number ∷ [])
        ∷ (call.GetExpirationNp, a_number ∷ [])
        ∷ []) }
{}

/// Mutexes and conditions.
#[tactic(auto, unfolding(crate::specs::Computing::verdict_words))]
pub fn mutex_calls()
    ensures { AreTaken
        ((call.MutexInit, a_mutex ∷ (a_mutexattr ++ the_word) ∷ [])
        ∷ (call.MutexDestroy, a_mutex ∷ [])
        ∷ (call.MutexLock, a_mutex ∷ [])
        ∷ (call.MutexTrylock, a_mutex ∷ [])
        ∷ (call.MutexUnlock, a_mutex ∷ [])
        ∷ (call.LockGlobalNp, [])
        ∷ (call.UnlockGlobalNp, [])
        ∷ (call.CondInit, a_cond ∷ [])
        ∷ (call.CondDestroy, a_cond ∷ [])
        ∷ (call.CondWait, a_cond ∷ a_mutex ∷ [])
        ∷ (call.CondTimedwait, a_cond ∷ a_mutex ∷ a_number ∷ [])
        ∷ (call.CondSignal, a_cond ∷ [])
        ∷ (call.CondBroadcast, a_cond ∷ [])
        ∷ []) }
{}

/// Once blocks, keys and pipes.
#[tactic(auto, unfolding(crate::specs::Computing::verdict_words))]
pub fn other_calls()
    ensures { AreTaken
        ((call.Once, a_once ∷ a_routine ∷ [])
        ∷ (call.Keycreate, a_key ∷ (a_routine ++ the_word) ∷ [])
        ∷ (call.Setspecific, a_key ∷ a_number ∷ [])
        ∷ (call.Getspecific, a_key ∷ [])
        ∷ (call.Read, a_pipe ∷ [])
        ∷ (call.Write, a_pipe ∷ a_number ∷ [])
        ∷ (call.Close, a_pipe ∷ [])
        ∷ []) }
{}

/// There are as many fixed words as a place takes, and no call line has more or fewer than four arguments.
#[tactic(auto, unfolding(crate::specs::Computing::verdict_words))]
pub fn words_and_lengths()
    ensures words { map (λ c. length (fixed_words c))
        (call.AttrSetsched ∷ call.AttrSetinheritsched ∷ call.Create ∷ call.Setcancel ∷ call.Setasynccancel ∷ call.Setscheduler
        ∷ call.MutexattrSetkindNp ∷ call.MutexInit ∷ call.Keycreate ∷ [])
        ≡ 4 ∷ 2 ∷ 1 ∷ 2 ∷ 2 ∷ 4 ∷ 3 ∷ 1 ∷ 1 ∷ [] }
    ensures four { have_their_form of_each_kind call.Getprio (firsts (a_number ∷ []) ++ arg.Nothing ∷ arg.Nothing ∷ arg.Nothing ∷ []) ≡ true }
    ensures three { have_their_form of_each_kind call.Getprio (firsts (a_number ∷ []) ++ arg.Nothing ∷ arg.Nothing ∷ []) ≡ false }
    ensures five { have_their_form of_each_kind call.Getprio
        (firsts (a_number ∷ []) ++ arg.Nothing ∷ arg.Nothing ∷ arg.Nothing ∷ arg.Nothing ∷ []) ≡ false }
    ensures one { have_their_form of_each_kind call.Create (firsts (an_attr ∷ a_routine ∷ a_number ∷ [])) ≡ false }
{}
