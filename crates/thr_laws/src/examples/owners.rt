//! Owners of mutexes and of the global lock.

ghost use Rattle.std.specs.Prelude.{◌≡◌, ◌∷◌, ◌++◌, [], pos, Some, None};
ghost use Rattle.thr_values.specs.declared.call.CallWord.TheVariants as word;
ghost use Rattle.thr_values.specs.declared.event.Stop.TheVariants as stops;
ghost use Rattle.thr_values.specs.declared.history.What.TheVariants as what;
ghost use Rattle.thr_values.specs.declared.reply.Reply.TheVariants as reply;
ghost use Rattle.thr_remainder.specs.Samples.{c, k, m, x};
ghost use Rattle.thr_laws.specs.Owners.{owned, owner};
ghost use Rattle.thr_laws.specs.Passing.{HasOneOwner, failing};
ghost use Rattle.thr_laws.specs.Samples.{
  by,
  calls,
  first,
  kind_set,
  of,
  second,
  third,
  three_lock,
  two_wait,
  up_to_the_cancel,
  value,
  wait_cancelled,
  with_kind,
};

/// Who owns a lock after each line that does something with it.
#[tactic(auto, unfolding(crate::specs::Computing::law_words))]
pub fn owners()
    ensures nobody { owner [] (Some m) ≡ None }
    ensures locked { owner (calls 2 word.MutexLock (of m ∷ []) reply.Done ∷ []) (Some m) ≡ owned 2 1 }
    ensures other_mutex { owner (calls 2 word.MutexLock (of m ∷ []) reply.Done ∷ []) (Some x) ≡ None }
    ensures not_the_global_lock { owner (calls 2 word.MutexLock (of m ∷ []) reply.Done ∷ []) None ≡ None }
    ensures blocks { owner (calls 2 word.MutexLock (of m ∷ []) reply.Blocks ∷ []) (Some m) ≡ None }
    ensures deadlock { owner (calls 2 word.MutexLock (of m ∷ []) reply.Edeadlk ∷ []) (Some m) ≡ None }
    ensures tried { owner (calls 2 word.MutexTrylock (of m ∷ []) (value 1) ∷ []) (Some m) ≡ owned 2 1 }
    ensures tried_in_vain { owner (calls 2 word.MutexTrylock (of m ∷ []) (value 0) ∷ []) (Some m) ≡ None }
    ensures given { owner (by 3 (what.Gift (Some m)) ∷ []) (Some m) ≡ owned 3 1 }
    ensures given_global { owner (by 3 (what.Gift None) ∷ []) None ≡ owned 3 1 }
    ensures twice { owner (calls 2 word.LockGlobalNp [] reply.Done ∷ calls 2 word.LockGlobalNp [] reply.Done ∷ []) None
        ≡ owned 2 2 }
    ensures less { owner (calls 2 word.LockGlobalNp [] reply.Done ∷ calls 2 word.LockGlobalNp [] reply.Done
        ∷ calls 2 word.UnlockGlobalNp [] reply.Done ∷ []) None
        ≡ owned 2 1 }
    ensures free { owner (calls 2 word.MutexLock (of m ∷ []) reply.Done ∷ calls 2 word.MutexUnlock (of m ∷ []) reply.Done
        ∷ []) (Some m)
        ≡ None }
    ensures not_unlocked { owner (calls 2 word.MutexLock (of m ∷ []) reply.Done
        ∷ calls 3 word.MutexUnlock (of m ∷ []) reply.Eperm ∷ []) (Some m)
        ≡ owned 2 1 }
    ensures waits { owner (calls 2 word.MutexLock (of m ∷ []) reply.Done
        ∷ calls 2 word.CondWait (of c ∷ of m ∷ []) reply.Blocks ∷ []) (Some m)
        ≡ None }
    ensures waits_for_a_time { owner (calls 2 word.MutexLock (of m ∷ []) reply.Done
        ∷ calls 2 word.CondTimedwait (of c ∷ of m ∷ []) reply.Blocks ∷ []) (Some m)
        ≡ None }
    ensures keeps_it { owner (calls 2 word.MutexLock (of m ∷ []) reply.Done
        ∷ calls 2 word.CondTimedwait (of c ∷ of m ∷ []) reply.Eagain ∷ []) (Some m)
        ≡ owned 2 1 }
{}

/// One owner at a time: handed over, locked again by kind, and tried.
#[tactic(auto, unfolding(crate::specs::Computing::law_words))]
pub fn kept_by_one()
    ensures handed_over { failing three_lock
        (two_wait ++ (calls 1 word.MutexUnlock (of m ∷ []) reply.Done ∷ by 2 (what.Gift (Some m)) ∷ by 2 (what.Ret reply.Done)
        ∷ calls 2 word.MutexUnlock (of m ∷ []) reply.Done ∷ by 3 (what.Gift (Some m)) ∷ by 3 (what.Ret reply.Done) ∷ []))
        stops.Memory
        ≡ [] }
    ensures recursive { failing three_lock
        (with_kind second ++ (calls 1 word.MutexLock (of m ∷ []) reply.Done ∷ calls 1 word.MutexLock (of m ∷ []) reply.Done
        ∷ calls 1 word.MutexTrylock (of m ∷ []) (value 1) ∷ calls 1 word.MutexUnlock (of m ∷ []) reply.Done
        ∷ calls 1 word.MutexUnlock (of m ∷ []) reply.Done ∷ calls 1 word.MutexUnlock (of m ∷ []) reply.Done
        ∷ calls 1 word.MutexUnlock (of m ∷ []) reply.Eperm ∷ [])) stops.Memory
        ≡ [] }
    ensures global { failing three_lock
        (calls 1 word.LockGlobalNp [] reply.Done ∷ calls 1 word.LockGlobalNp [] reply.Done
        ∷ calls 2 word.LockGlobalNp [] reply.Blocks ∷ calls 1 word.UnlockGlobalNp [] reply.Done
        ∷ calls 1 word.UnlockGlobalNp [] reply.Done ∷ by 2 (what.Gift None) ∷ by 2 (what.Ret reply.Done)
        ∷ calls 2 word.UnlockGlobalNp [] reply.Done ∷ []) stops.Memory
        ≡ [] }
    ensures kind_of_its_making { failing three_lock
        (with_kind second ++ (kind_set first ∷ calls 1 word.MutexLock (of m ∷ []) reply.Done
        ∷ calls 1 word.MutexLock (of m ∷ []) reply.Done ∷ [])) stops.Memory
        ≡ [] }
    ensures kind_of_its_last_making { failing three_lock
        (with_kind first ++ (calls 1 word.MutexDestroy (of m ∷ []) reply.Done ∷ kind_set second
        ∷ calls 1 word.MutexInit (of m ∷ of k ∷ []) reply.Done ∷ calls 1 word.MutexLock (of m ∷ []) reply.Done
        ∷ calls 1 word.MutexLock (of m ∷ []) reply.Done ∷ [])) stops.Memory
        ≡ [] }
{}

/// Second owners, and locks that others free.
#[tactic(auto, unfolding(crate::specs::Computing::law_words))]
pub fn two_owners()
    ensures given_to_two { failing three_lock
        (two_wait ++ (calls 1 word.MutexUnlock (of m ∷ []) reply.Done ∷ by 2 (what.Gift (Some m)) ∷ by 3 (what.Gift (Some m))
        ∷ by 2 (what.Ret reply.Done) ∷ by 3 (what.Ret reply.Done) ∷ [])) stops.Memory
        ≡ HasOneOwner ∷ [] }
    ensures given_while_owned { failing three_lock
        (two_wait ++ (by 2 (what.Gift (Some m)) ∷ by 2 (what.Ret reply.Done) ∷ [])) stops.Memory
        ≡ HasOneOwner ∷ [] }
    ensures given_again { failing three_lock
        (with_kind second ++ (calls 1 word.MutexLock (of m ∷ []) reply.Done ∷ by 1 (what.Gift (Some m)) ∷ [])) stops.Memory
        ≡ HasOneOwner ∷ [] }
    ensures locked_by_another { failing three_lock
        (calls 1 word.MutexLock (of m ∷ []) reply.Done ∷ calls 2 word.MutexLock (of m ∷ []) reply.Done ∷ []) stops.Memory
        ≡ HasOneOwner ∷ [] }
    ensures tried_by_another { failing three_lock
        (calls 1 word.MutexLock (of m ∷ []) reply.Done ∷ calls 2 word.MutexTrylock (of m ∷ []) (value 1) ∷ []) stops.Memory
        ≡ HasOneOwner ∷ [] }
    ensures recursive_locked_by_another { failing three_lock
        (with_kind second ++ (calls 1 word.MutexLock (of m ∷ []) reply.Done ∷ calls 2 word.MutexLock (of m ∷ []) reply.Done
        ∷ [])) stops.Memory
        ≡ HasOneOwner ∷ [] }
    ensures fast_locked_twice { failing three_lock
        (calls 1 word.MutexInit (of m ∷ first ∷ []) reply.Done ∷ calls 1 word.MutexLock (of m ∷ []) reply.Done
        ∷ calls 1 word.MutexLock (of m ∷ []) reply.Done ∷ []) stops.Memory
        ≡ HasOneOwner ∷ [] }
    ensures fast_by_its_cell { failing three_lock
        (with_kind first ++ (calls 1 word.MutexLock (of m ∷ []) reply.Done ∷ calls 1 word.MutexLock (of m ∷ []) reply.Done
        ∷ [])) stops.Memory
        ≡ HasOneOwner ∷ [] }
    ensures nonrecursive_locked_twice { failing three_lock
        (with_kind third ++ (calls 1 word.MutexLock (of m ∷ []) reply.Done ∷ calls 1 word.MutexLock (of m ∷ []) reply.Done
        ∷ [])) stops.Memory
        ≡ HasOneOwner ∷ [] }
    ensures kind_set_later { failing three_lock
        (with_kind first ++ (kind_set second ∷ calls 1 word.MutexLock (of m ∷ []) reply.Done
        ∷ calls 1 word.MutexLock (of m ∷ []) reply.Done ∷ [])) stops.Memory
        ≡ HasOneOwner ∷ [] }
    ensures fast_when_made_again { failing three_lock
        (with_kind second ++ (calls 1 word.MutexattrDelete (of k ∷ []) reply.Done
        ∷ calls 1 word.MutexattrCreate (of k ∷ []) reply.Done ∷ calls 1 word.MutexDestroy (of m ∷ []) reply.Done
        ∷ calls 1 word.MutexInit (of m ∷ of k ∷ []) reply.Done
        ∷ calls 1 word.MutexLock (of m ∷ []) reply.Done ∷ calls 1 word.MutexLock (of m ∷ []) reply.Done ∷ [])) stops.Memory
        ≡ HasOneOwner ∷ [] }
    ensures global { failing three_lock
        (calls 1 word.LockGlobalNp [] reply.Done ∷ calls 2 word.LockGlobalNp [] reply.Done ∷ []) stops.Memory
        ≡ HasOneOwner ∷ [] }
    ensures unlocked_by_another { failing three_lock
        (calls 1 word.MutexLock (of m ∷ []) reply.Done ∷ calls 2 word.MutexUnlock (of m ∷ []) reply.Done ∷ []) stops.Memory
        ≡ HasOneOwner ∷ [] }
    ensures unlocked_too_often { failing three_lock
        (calls 1 word.MutexLock (of m ∷ []) reply.Done ∷ calls 1 word.MutexUnlock (of m ∷ []) reply.Done
        ∷ calls 1 word.MutexUnlock (of m ∷ []) reply.Done ∷ []) stops.Memory
        ≡ HasOneOwner ∷ [] }
    ensures waits_without_it { failing three_lock
        (calls 1 word.MutexLock (of m ∷ []) reply.Done ∷ calls 2 word.CondWait (of c ∷ of m ∷ []) reply.Blocks ∷ [])
        stops.Memory
        ≡ HasOneOwner ∷ [] }
    ensures waits_for_a_time_without_it { failing three_lock
        (calls 2 word.CondTimedwait (of c ∷ of m ∷ []) reply.Blocks ∷ []) stops.Memory
        ≡ HasOneOwner ∷ [] }
{}
