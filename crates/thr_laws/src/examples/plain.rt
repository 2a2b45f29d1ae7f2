//! Which call lines are plain.

ghost use Rattle.std.specs.Prelude.{◌≡◌, ◌∷◌, [], map, replicate, true, false, pos};
ghost use Rattle.thr_values.specs.declared.call.CallWord.TheVariants as word;
ghost use Rattle.thr_values.specs.declared.history.What.TheVariants as what;
ghost use Rattle.thr_values.specs.declared.reply.Reply.TheVariants as reply;
ghost use Rattle.thr_remainder.specs.Samples.{call, o, r};
ghost use Rattle.thr_laws.specs.Plain.{is_plain, is_plain_call};
ghost use Rattle.thr_laws.specs.Samples.{of, value};

/// The words of plain calls, and the others.
#[tactic(auto, unfolding(crate::specs::Computing::law_words))]
pub fn plain_calls()
    ensures plain { map is_plain_call
        (word.AttrCreate ∷ word.AttrDelete ∷ word.AttrSetsched ∷ word.AttrSetprio ∷ word.AttrSetinheritsched
        ∷ word.AttrSetstacksize ∷ word.Create ∷ word.Detach ∷ word.Yield ∷ word.Setprio ∷ word.Getprio ∷ word.Setscheduler
        ∷ word.Getscheduler ∷ word.GetExpirationNp ∷ word.CondInit ∷ word.CondDestroy ∷ word.CondSignal
        ∷ word.CondBroadcast ∷ word.Once ∷ word.Keycreate ∷ word.Setspecific ∷ word.Getspecific ∷ word.Close ∷ [])
        ≡ replicate 23 true }
    ensures others { map is_plain_call
        (word.Testcancel ∷ word.CondWait ∷ word.CondTimedwait ∷ word.Join ∷ word.DelayNp ∷ word.Read ∷ word.Write
        ∷ word.MutexattrCreate ∷ word.MutexattrSetkindNp ∷ word.MutexattrDelete ∷ word.MutexInit ∷ word.MutexDestroy
        ∷ word.MutexLock ∷ word.MutexTrylock ∷ word.MutexUnlock ∷ word.LockGlobalNp ∷ word.UnlockGlobalNp ∷ word.Cancel
        ∷ word.Setcancel ∷ word.Setasynccancel ∷ [])
        ≡ replicate 20 false }
{}

/// Plain calls that block, and lines that are no calls, are not plain.
#[tactic(auto, unfolding(crate::specs::Computing::law_words))]
pub fn plain_lines()
    ensures done { is_plain (call word.Once (of o ∷ of r ∷ []) reply.Done) ≡ true }
    ensures blocks { is_plain (call word.Once (of o ∷ of r ∷ []) reply.Blocks) ≡ false }
    ensures valued { is_plain (call word.Create (of r ∷ []) (value 2)) ≡ true }
    ensures says { is_plain (what.Say (pos 7)) ≡ false }
    ensures returns { is_plain (what.Ret reply.Done) ≡ false }
    ensures tests { is_plain (call word.Testcancel [] reply.Done) ≡ false }
{}
