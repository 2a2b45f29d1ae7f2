//! Cancelled waits whose handlers find the mutex, and some whose handlers don't, computed from the definitions.

ghost use Rattle.std.specs.Prelude.{◌≡◌, ◌∷◌, ◌++◌, [], negsuc, Some, true, false};
ghost use Rattle.thr_values.specs.declared.call.CallWord.TheVariants as word;
ghost use Rattle.thr_values.specs.declared.history.What.TheVariants as what;
ghost use Rattle.thr_values.specs.declared.reply.Reply.TheVariants as reply;
ghost use Rattle.thr_remainder.specs.Samples.{m, o};
ghost use Rattle.thr_laws.specs.Samples.{at, by, calls, number, of, runs, up_to_the_cancel, wait_cancelled, wakes};
ghost use Rattle.thr_reacquired.specs.Handling.{handlers_find_the_mutex};

/// Handlers that find the mutex: at once, and after a pause while the canceller waits for it.
#[tactic(auto, unfolding(thr_laws::specs::Computing::law_words))]
pub fn found_mutexes()
    ensures at_once { handlers_find_the_mutex 2 (Some m) (up_to_the_cancel ++ wait_cancelled) ≡ true }
    ensures after_a_pause { handlers_find_the_mutex 2 (Some m)
        (up_to_the_cancel ++ (calls 1 word.Cancel (number 2 ∷ []) wakes ∷ calls 1 word.MutexUnlock (of m ∷ []) reply.Done
        ∷ by 2 (what.Gift (Some m)) ∷ by 2 (what.Deliver 1 (at 8)) ∷ by 2 what.Pause
        ∷ calls 1 word.MutexLock (of m ∷ []) reply.Blocks ∷ by 2 (what.Finally 1 1) ∷ []))
        ≡ true }
    ensures after_the_thread { handlers_find_the_mutex 2 (Some m)
        (up_to_the_cancel ++ (calls 1 word.Cancel (number 2 ∷ []) wakes ∷ calls 1 word.MutexUnlock (of m ∷ []) reply.Done
        ∷ by 2 (what.Gift (Some m)) ∷ by 2 (what.Deliver 1 (at 8)) ∷ by 2 (what.Bottom 1 (negsuc 0)) ∷ []))
        ≡ true }
{}

/// Handlers that don't: the mutex wasn't given, another has it, the thread unlocked it first, or another unwinding is carried.
#[tactic(auto, unfolding(thr_laws::specs::Computing::law_words))]
pub fn missed_mutexes()
    ensures not_given { handlers_find_the_mutex 2 (Some m)
        (up_to_the_cancel ++ (calls 1 word.Cancel (number 2 ∷ []) wakes ∷ by 2 (what.Deliver 1 (at 8)) ∷ by 2 (what.Finally 1 1)
        ∷ []))
        ≡ false }
    ensures another_given { handlers_find_the_mutex 2 (Some m)
        (up_to_the_cancel ++ (calls 1 word.Cancel (number 2 ∷ []) wakes ∷ calls 1 word.MutexUnlock (of m ∷ []) reply.Done
        ∷ by 2 (what.Gift (Some o)) ∷ by 2 (what.Deliver 1 (at 8)) ∷ by 2 (what.Finally 1 1) ∷ []))
        ≡ false }
    ensures unlocked_first { handlers_find_the_mutex 2 (Some m)
        (up_to_the_cancel ++ (calls 1 word.Cancel (number 2 ∷ []) wakes ∷ calls 1 word.MutexUnlock (of m ∷ []) reply.Done
        ∷ by 2 (what.Gift (Some m)) ∷ by 2 (what.Deliver 1 (at 8)) ∷ calls 2 word.MutexUnlock (of m ∷ []) reply.Done
        ∷ by 2 (what.Finally 1 1) ∷ []))
        ≡ false }
    ensures another_unwinding { handlers_find_the_mutex 2 (Some m)
        (up_to_the_cancel ++ (calls 1 word.Cancel (number 2 ∷ []) wakes ∷ calls 1 word.MutexUnlock (of m ∷ []) reply.Done
        ∷ by 2 (what.Gift (Some m)) ∷ by 2 (what.Deliver 1 (at 8)) ∷ by 2 (what.Finally 1 2) ∷ []))
        ≡ false }
{}
