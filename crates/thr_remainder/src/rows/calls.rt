//! Each call of the thread service: its line, where its expressions have the values 5 and 6, and the variables that it writes.

ghost use Rattle.std.specs.Prelude.{◌≡◌, pos, ◌∷◌, [], map, replicate, None, Some, true, false};
ghost use Rattle.thr_values.specs.declared.call.Arg.TheVariants as arg;
ghost use Rattle.thr_values.specs.declared.call.CallWord.TheVariants as word;
ghost use Rattle.thr_values.specs.declared.reply.Kind.TheVariants as kind;
ghost use Rattle.thr_values.specs.declared.reply.Reply.TheVariants as reply;
ghost use Rattle.thr_values.specs.declared.scheduling.Policy.TheVariants as policy;
ghost use Rattle.thr_syntax.specs.declared.dce.DceCall.TheVariants as dce;
ghost use Rattle.thr_syntax.specs.declared.expr.Expr.TheVariants as expr;
ghost use Rattle.thr_syntax.specs.declared.expr.Var.TheVariants.{Local, Shared};
ghost use Rattle.thr_remainder.specs.Calls.{is_point};
ghost use Rattle.thr_remainder.specs.Samples.{a, b, c, call, call_lines, k, m, o, p, r, stored_by};

/// Attribute cells.
#[tactic(auto, unfolding(crate::specs::Computing::remainder_words))]
pub fn attribute_calls()
    ensures { call_lines
        (dce.AttrCreate a ∷ dce.AttrDelete a ∷ dce.AttrSetsched a policy.Fifo ∷ dce.AttrSetsched a policy.Rr
        ∷ dce.AttrSetsched a policy.Fg ∷ dce.AttrSetsched a policy.Bg ∷ dce.AttrSetprio a expr.Me
        ∷ dce.AttrSetinheritsched a true ∷ dce.AttrSetinheritsched a false ∷ dce.AttrSetstacksize a expr.Me ∷ [])
        ≡ call word.AttrCreate (arg.Name a ∷ []) reply.Done
        ∷ call word.AttrDelete (arg.Name a ∷ []) reply.Done
        ∷ call word.AttrSetsched (arg.Name a ∷ arg.Word 0 ∷ []) reply.Done
        ∷ call word.AttrSetsched (arg.Name a ∷ arg.Word 1 ∷ []) reply.Done
        ∷ call word.AttrSetsched (arg.Name a ∷ arg.Word 2 ∷ []) reply.Done
        ∷ call word.AttrSetsched (arg.Name a ∷ arg.Word 3 ∷ []) reply.Done
        ∷ call word.AttrSetprio (arg.Name a ∷ arg.Num (pos 5) ∷ []) reply.Done
        ∷ call word.AttrSetinheritsched (arg.Name a ∷ arg.Word 0 ∷ []) reply.Done
        ∷ call word.AttrSetinheritsched (arg.Name a ∷ arg.Word 1 ∷ []) reply.Done
        ∷ call word.AttrSetstacksize (arg.Name a ∷ arg.Num (pos 5) ∷ []) reply.Done
        ∷ [] }
{}

/// Threads and times.
#[tactic(auto, unfolding(crate::specs::Computing::remainder_words))]
pub fn thread_calls()
    ensures { call_lines
        (dce.Create (Local 1) None r expr.Me ∷ dce.Create (Local 1) (Some a) r expr.Me ∷ dce.Join expr.Me (Local 1)
        ∷ dce.Detach expr.Me ∷ dce.Yield ∷ dce.Cancel expr.Me ∷ dce.Testcancel ∷ dce.Setcancel true (Local 1)
        ∷ dce.Setcancel false (Local 1) ∷ dce.Setasynccancel true (Local 1) ∷ dce.Setasynccancel false (Local 1)
        ∷ dce.Setprio expr.Me expr.Err (Local 1) ∷ dce.Getprio expr.Me (Local 1)
        ∷ dce.Setscheduler expr.Me policy.Bg expr.Err (Local 1) ∷ dce.Getscheduler expr.Me (Local 1) ∷ dce.DelayNp expr.Me
        ∷ dce.GetExpirationNp expr.Me (Local 1) ∷ [])
        ≡ call word.Create (arg.Word 0 ∷ arg.Name r ∷ arg.Num (pos 5) ∷ []) reply.Done
        ∷ call word.Create (arg.Name a ∷ arg.Name r ∷ arg.Num (pos 5) ∷ []) reply.Done
        ∷ call word.Join (arg.Num (pos 5) ∷ []) reply.Done
        ∷ call word.Detach (arg.Num (pos 5) ∷ []) reply.Done
        ∷ call word.Yield [] reply.Done
        ∷ call word.Cancel (arg.Num (pos 5) ∷ []) reply.Done
        ∷ call word.Testcancel [] reply.Done
        ∷ call word.Setcancel (arg.Word 0 ∷ []) reply.Done
        ∷ call word.Setcancel (arg.Word 1 ∷ []) reply.Done
        ∷ call word.Setasynccancel (arg.Word 0 ∷ []) reply.Done
        ∷ call word.Setasynccancel (arg.Word 1 ∷ []) reply.Done
        ∷ call word.Setprio (arg.Num (pos 5) ∷ arg.Num (pos 6) ∷ []) reply.Done
        ∷ call word.Getprio (arg.Num (pos 5) ∷ []) reply.Done
        ∷ call word.Setscheduler (arg.Num (pos 5) ∷ arg.Word 3 ∷ arg.Num (pos 6) ∷ []) reply.Done
        ∷ call word.Getscheduler (arg.Num (pos 5) ∷ []) reply.Done
        ∷ call word.DelayNp (arg.Num (pos 5) ∷ []) reply.Done
        ∷ call word.GetExpirationNp (arg.Num (pos 5) ∷ []) reply.Done
        ∷ [] }
{}

/// Mutexes, the global lock and conditions.
#[tactic(auto, unfolding(crate::specs::Computing::remainder_words))]
pub fn lock_calls()
    ensures { call_lines
        (dce.MutexattrCreate b ∷ dce.MutexattrSetkindNp b kind.Fast ∷ dce.MutexattrSetkindNp b kind.Recursive
        ∷ dce.MutexattrSetkindNp b kind.Nonrecursive ∷ dce.MutexattrDelete b ∷ dce.MutexInit m None
        ∷ dce.MutexInit m (Some b)
        ∷ dce.MutexDestroy m ∷ dce.MutexLock m ∷ dce.MutexTrylock m (Local 1) ∷ dce.MutexUnlock m ∷ dce.LockGlobalNp
        ∷ dce.UnlockGlobalNp ∷ dce.CondInit c ∷ dce.CondDestroy c ∷ dce.CondWait c m ∷ dce.CondTimedwait c m expr.Me
        ∷ dce.CondSignal c ∷ dce.CondBroadcast c ∷ [])
        ≡ call word.MutexattrCreate (arg.Name b ∷ []) reply.Done
        ∷ call word.MutexattrSetkindNp (arg.Name b ∷ arg.Word 0 ∷ []) reply.Done
        ∷ call word.MutexattrSetkindNp (arg.Name b ∷ arg.Word 1 ∷ []) reply.Done
        ∷ call word.MutexattrSetkindNp (arg.Name b ∷ arg.Word 2 ∷ []) reply.Done
        ∷ call word.MutexattrDelete (arg.Name b ∷ []) reply.Done
        ∷ call word.MutexInit (arg.Name m ∷ arg.Word 0 ∷ []) reply.Done
        ∷ call word.MutexInit (arg.Name m ∷ arg.Name b ∷ []) reply.Done
        ∷ call word.MutexDestroy (arg.Name m ∷ []) reply.Done
        ∷ call word.MutexLock (arg.Name m ∷ []) reply.Done
        ∷ call word.MutexTrylock (arg.Name m ∷ []) reply.Done
        ∷ call word.MutexUnlock (arg.Name m ∷ []) reply.Done
        ∷ call word.LockGlobalNp [] reply.Done
        ∷ call word.UnlockGlobalNp [] reply.Done
        ∷ call word.CondInit (arg.Name c ∷ []) reply.Done
        ∷ call word.CondDestroy (arg.Name c ∷ []) reply.Done
        ∷ call word.CondWait (arg.Name c ∷ arg.Name m ∷ []) reply.Done
        ∷ call word.CondTimedwait (arg.Name c ∷ arg.Name m ∷ arg.Num (pos 5) ∷ []) reply.Done
        ∷ call word.CondSignal (arg.Name c ∷ []) reply.Done
        ∷ call word.CondBroadcast (arg.Name c ∷ []) reply.Done
        ∷ [] }
{}

/// Once blocks, keys and pipes.
#[tactic(auto, unfolding(crate::specs::Computing::remainder_words))]
pub fn other_calls()
    ensures { call_lines
        (dce.Once o r ∷ dce.Keycreate k None ∷ dce.Keycreate k (Some r) ∷ dce.Setspecific k expr.Me
        ∷ dce.Getspecific k (Local 1) ∷ dce.Read p (Local 1) (Local 2) ∷ dce.Write p expr.Me ∷ dce.Close p ∷ [])
        ≡ call word.Once (arg.Name o ∷ arg.Name r ∷ []) reply.Done
        ∷ call word.Keycreate (arg.Name k ∷ arg.Word 0 ∷ []) reply.Done
        ∷ call word.Keycreate (arg.Name k ∷ arg.Name r ∷ []) reply.Done
        ∷ call word.Setspecific (arg.Name k ∷ arg.Num (pos 5) ∷ []) reply.Done
        ∷ call word.Getspecific (arg.Name k ∷ []) reply.Done
        ∷ call word.Read (arg.Name p ∷ []) reply.Done
        ∷ call word.Write (arg.Name p ∷ arg.Num (pos 5) ∷ []) reply.Done
        ∷ call word.Close (arg.Name p ∷ []) reply.Done
        ∷ [] }
{}

/// The variables in which calls store the value of a reply, and the calls that store none.
#[tactic(auto, unfolding(crate::specs::Computing::remainder_words))]
pub fn variables()
    ensures one { stored_by (reply.Value (pos 7))
        (dce.Create (Local 1) None r expr.Me ∷ dce.Join expr.Me (Local 1) ∷ dce.Setcancel true (Local 1)
        ∷ dce.Setasynccancel true (Local 1) ∷ dce.Setprio expr.Me expr.Err (Local 1) ∷ dce.Getprio expr.Me (Local 1)
        ∷ dce.Setscheduler expr.Me policy.Bg expr.Err (Local 1) ∷ dce.Getscheduler expr.Me (Local 1)
        ∷ dce.GetExpirationNp expr.Me (Local 1) ∷ dce.MutexTrylock m (Local 1) ∷ dce.Getspecific k (Local 1) ∷ [])
        ≡ replicate 11 ((Local 1, pos 7) ∷ []) }
    ensures two { stored_by (reply.Value (pos 7)) (dce.Read p (Local 1) (Shared o) ∷ [])
        ≡ ((Local 1, pos 7) ∷ (Shared o, pos 1) ∷ []) ∷ [] }
    ensures at_the_end_of_a_pipe { stored_by reply.Eof (dce.Read p (Local 1) (Shared o) ∷ [])
        ≡ ((Local 1, pos 0) ∷ (Shared o, pos 0) ∷ []) ∷ [] }
    ensures without_a_value { stored_by reply.Esrch
        (dce.Create (Local 1) None r expr.Me ∷ dce.Join expr.Me (Local 1) ∷ dce.Read p (Local 1) (Local 2) ∷ [])
        ≡ replicate 3 [] }
    ensures none { stored_by (reply.Value (pos 7))
        (dce.AttrCreate a ∷ dce.AttrDelete a ∷ dce.AttrSetsched a policy.Fifo ∷ dce.AttrSetprio a expr.Me
        ∷ dce.AttrSetinheritsched a true ∷ dce.AttrSetstacksize a expr.Me ∷ dce.Detach expr.Me ∷ dce.Yield
        ∷ dce.Cancel expr.Me ∷ dce.Testcancel ∷ dce.DelayNp expr.Me ∷ dce.MutexattrCreate b
        ∷ dce.MutexattrSetkindNp b kind.Fast ∷ dce.MutexattrDelete b ∷ dce.MutexInit m None ∷ dce.MutexDestroy m
        ∷ dce.MutexLock m ∷ dce.MutexUnlock m ∷ dce.LockGlobalNp ∷ dce.UnlockGlobalNp ∷ dce.CondInit c ∷ dce.CondDestroy c
        ∷ dce.CondWait c m ∷ dce.CondTimedwait c m expr.Me ∷ dce.CondSignal c ∷ dce.CondBroadcast c ∷ dce.Once o r
        ∷ dce.Keycreate k None ∷ dce.Setspecific k expr.Me ∷ dce.Write p expr.Me ∷ dce.Close p ∷ [])
        ≡ replicate 31 [] }
{}

/// The calls that are points, and those that are none.
#[tactic(auto, unfolding(crate::specs::Computing::remainder_words))]
pub fn points()
    ensures points { map is_point
        (word.Join ∷ word.Testcancel ∷ word.DelayNp ∷ word.CondWait ∷ word.CondTimedwait ∷ word.Read ∷ word.Write ∷ [])
        ≡ replicate 7 true }
    ensures others { map is_point
        (word.AttrCreate ∷ word.AttrDelete ∷ word.AttrSetsched ∷ word.AttrSetprio ∷ word.AttrSetinheritsched
        ∷ word.AttrSetstacksize ∷ word.Create ∷ word.Detach ∷ word.Yield ∷ word.Cancel ∷ word.Setcancel
        ∷ word.Setasynccancel ∷ word.Setprio ∷ word.Getprio ∷ word.Setscheduler ∷ word.Getscheduler ∷ word.GetExpirationNp
        ∷ word.MutexattrCreate ∷ word.MutexattrSetkindNp ∷ word.MutexattrDelete ∷ word.MutexInit ∷ word.MutexDestroy
        ∷ word.MutexLock ∷ word.MutexTrylock ∷ word.MutexUnlock ∷ word.LockGlobalNp ∷ word.UnlockGlobalNp ∷ word.CondInit
        ∷ word.CondDestroy ∷ word.CondSignal ∷ word.CondBroadcast ∷ word.Once ∷ word.Keycreate ∷ word.Setspecific
        ∷ word.Getspecific ∷ word.Close ∷ [])
        ≡ replicate 36 false }
{}
