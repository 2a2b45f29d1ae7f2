//! Whole threads, from their first step to their end.

ghost use Rattle.std.specs.Prelude.{◌≡◌, pos, negsuc, ◌∷◌, [], None, Some};
ghost use Rattle.thr_values.specs.Exceptions.{cancel_e, existence_e, intovf_e, use_error_e};
ghost use Rattle.thr_values.specs.declared.call.Arg.TheVariants as arg;
ghost use Rattle.thr_values.specs.declared.call.CallWord.TheVariants as word;
ghost use Rattle.thr_values.specs.declared.exception.Exc.TheVariants.{Address, Status};
ghost use Rattle.thr_values.specs.declared.history.What.TheVariants as what;
ghost use Rattle.thr_values.specs.declared.reply.Effect.TheVariants as effect;
ghost use Rattle.thr_values.specs.declared.reply.Reply.TheVariants as reply;
ghost use Rattle.thr_syntax.specs.declared.dce.DceCall.TheVariants as dce;
ghost use Rattle.thr_syntax.specs.declared.expr.ExcRef.TheVariants.{This};
ghost use Rattle.thr_syntax.specs.declared.expr.Expr.TheVariants as expr;
ghost use Rattle.thr_syntax.specs.declared.expr.Op.TheVariants as op;
ghost use Rattle.thr_syntax.specs.declared.expr.Var.TheVariants.{Local, Shared};
ghost use Rattle.thr_syntax.specs.declared.tree.Interface.TheVariants as interface;
ghost use Rattle.thr_syntax.specs.declared.tree.Item.TheVariants as item;
ghost use Rattle.thr_syntax.specs.declared.tree.Stmt.TheVariants as stmt;
ghost use Rattle.thr_remainder.specs.Alone.{Delivers, Destroys, Replies, Returns, ReturnsAndRuns, Runs};
ghost use Rattle.thr_remainder.specs.Samples.{a, b, c, call, catch, catch_all, e, greatest, j, k, lines_at, lines_of, local, m, main, named, num, o, r, routine, s, say, script, shared, x};
ghost use Rattle.thr_remainder.specs.Starts.{at};

/// A status exception is caught by its number through a call, and the FINALLY bodies on the way run.
#[tactic(auto, unfolding(crate::specs::Computing::remainder_words))]
pub fn match_by_number()
    ensures { lines_of
        (script
        (item.Status a (pos 5) ∷ item.Status b (pos 5)
        ∷ routine r 0 (stmt.TryFinally (stmt.Raise a ∷ []) (say 1 ∷ []) ∷ [])
        ∷ [])
        0
        (stmt.TryCatch
        (stmt.TryFinally (stmt.Call r (num 0) None ∷ []) (say 2 ∷ []) ∷ [])
        (catch b (stmt.Say (expr.GetStatus This) ∷ []) ∷ [])
        ∷ []))
        []
        ≡ what.Try 1 (at 12) ∷ what.Try 2 (at 13) ∷ what.Try 3 (at 5) ∷ what.Raise 1 (Status (pos 5))
        ∷ what.Finally 3 1 ∷ what.Say (pos 1) ∷ what.Endfin 3
        ∷ what.Finally 2 1 ∷ what.Say (pos 2) ∷ what.Endfin 2
        ∷ what.Catch 1 1 (at 18) ∷ what.Say (pos 5) ∷ what.Endcatch 1 ∷ what.End (pos 0) ∷ [] }
{}

/// A cancel that was caught is raised again.
#[tactic(auto, unfolding(crate::specs::Computing::remainder_words))]
pub fn cancel_raised_again()
    ensures { lines_of
        (script [] 0
        (stmt.TryCatch
        (stmt.TryCatch
        (stmt.Dce (dce.Cancel expr.Me) ∷ stmt.Dce dce.Testcancel ∷ [])
        (catch_all (stmt.Reraise ∷ []) ∷ [])
        ∷ [])
        (catch (named 0) (say 3 ∷ []) ∷ [])
        ∷ []))
        (Replies (reply.Effect effect.Pending) ∷ Delivers ∷ [])
        ≡ what.Try 1 (at 3) ∷ what.Try 2 (at 4) ∷ call word.Cancel (arg.Num (pos 1) ∷ []) (reply.Effect effect.Pending)
        ∷ what.Deliver 1 (at 6) ∷ what.Catch 2 1 (at 7) ∷ what.Reraise 2 cancel_e ∷ what.Catch 1 2 (at 10)
        ∷ what.Say (pos 3) ∷ what.Endcatch 1 ∷ what.End (pos 0) ∷ [] }
{}

/// A FINALLY body raises, and the unwinding that was pending in it is replaced.
#[tactic(auto, unfolding(crate::specs::Computing::remainder_words))]
pub fn finally_that_raises()
    ensures { lines_of
        (script (item.Exception a ∷ item.Exception b ∷ []) 0
        (stmt.TryCatch
        (stmt.TryFinally (stmt.Raise a ∷ []) (stmt.Raise b ∷ []) ∷ [])
        (catch b (say 1 ∷ []) ∷ [])
        ∷ []))
        []
        ≡ what.Try 1 (at 5) ∷ what.Try 2 (at 6) ∷ what.Raise 1 (Address a) ∷ what.Finally 2 1 ∷ what.Raise 2 (Address b)
        ∷ what.Catch 1 2 (at 11) ∷ what.Say (pos 1) ∷ what.Endcatch 1 ∷ what.End (pos 0) ∷ [] }
{}

/// A cancel is delivered out of a wait, by the line of the waiting call; or the wait returns and the next point delivers it.
#[tactic(auto, unfolding(crate::specs::Computing::remainder_words))]
pub fn cancelled_waits()
    ensures out_of_the_wait { lines_at
        (script
        (item.Mutex m ∷ item.Cond c ∷ item.Shared x (pos 0)
        ∷ routine s 0
        (stmt.Dce (dce.MutexLock m)
        ∷ stmt.TryFinally (stmt.Dce (dce.CondWait c m) ∷ []) (stmt.Dce (dce.MutexUnlock m) ∷ [])
        ∷ [])
        ∷ [])
        0 [])
        s (pos 0)
        (Replies reply.Done ∷ Replies reply.Blocks ∷ Delivers ∷ Replies reply.Done ∷ [])
        ≡ call word.MutexLock (arg.Name m ∷ []) reply.Done ∷ what.Try 1 (at 7)
        ∷ call word.CondWait (arg.Name c ∷ arg.Name m ∷ []) reply.Blocks ∷ what.Deliver 1 (at 8) ∷ what.Finally 1 1
        ∷ call word.MutexUnlock (arg.Name m ∷ []) reply.Done ∷ what.Endfin 1 ∷ what.Bottom 1 (negsuc 0)
        ∷ what.End (negsuc 0)
        ∷ [] }
    ensures at_the_next_point { lines_at
        (script
        (item.Mutex m ∷ item.Cond c ∷ item.Shared x (pos 0)
        ∷ routine s 0
        (stmt.Dce (dce.MutexLock m)
        ∷ stmt.TryFinally (stmt.Dce (dce.CondWait c m) ∷ stmt.Dce dce.Testcancel ∷ []) (stmt.Dce (dce.MutexUnlock m) ∷ [])
        ∷ [])
        ∷ [])
        0 [])
        s (pos 0)
        (Replies reply.Done ∷ Replies reply.Blocks ∷ Returns reply.Done ∷ Delivers ∷ Replies reply.Done ∷ [])
        ≡ call word.MutexLock (arg.Name m ∷ []) reply.Done ∷ what.Try 1 (at 7)
        ∷ call word.CondWait (arg.Name c ∷ arg.Name m ∷ []) reply.Blocks ∷ what.Ret reply.Done ∷ what.Deliver 1 (at 9)
        ∷ what.Finally 1 1 ∷ call word.MutexUnlock (arg.Name m ∷ []) reply.Done ∷ what.Endfin 1
        ∷ what.Bottom 1 (negsuc 0) ∷ what.End (negsuc 0) ∷ [] }
{}

/// A canceller and its target: cancels merge, one is delivered, and the record is reclaimed.
#[tactic(auto, unfolding(crate::specs::Computing::remainder_words))]
pub fn merged_cancels()
    ensures target { lines_at
        (script
        (routine s 0
        (stmt.Dce dce.Yield
        ∷ stmt.TryCatch (stmt.Dce dce.Testcancel ∷ []) (catch (named 0) (stmt.Dce dce.Testcancel ∷ []) ∷ [])
        ∷ [])
        ∷ [])
        0 [])
        s (pos 0)
        (Replies reply.Done ∷ Delivers ∷ Replies reply.Done ∷ [])
        ≡ call word.Yield [] reply.Done ∷ what.Try 1 (at 4) ∷ what.Deliver 1 (at 5) ∷ what.Catch 1 1 (at 6)
        ∷ call word.Testcancel [] reply.Done ∷ what.Endcatch 1 ∷ what.End (pos 0) ∷ [] }
    ensures canceller { lines_of
        (script
        (routine s 0
        (stmt.Dce dce.Yield
        ∷ stmt.TryCatch (stmt.Dce dce.Testcancel ∷ []) (catch (named 0) (stmt.Dce dce.Testcancel ∷ []) ∷ [])
        ∷ [])
        ∷ [])
        2
        (stmt.Dce (dce.Create (Local 1) None s (num 0))
        ∷ stmt.Dce (dce.Cancel (local 1))
        ∷ stmt.Dce (dce.Cancel (local 1))
        ∷ stmt.Dce (dce.Join (local 1) (Local 2))
        ∷ stmt.Dce (dce.Cancel (local 1))
        ∷ stmt.Dce (dce.Detach (local 1))
        ∷ stmt.TryCatch (stmt.Dce (dce.Cancel (local 1)) ∷ []) (catch (named 3) (stmt.Say (local 2) ∷ []) ∷ [])
        ∷ []))
        (Replies (reply.Value (pos 2)) ∷ Replies (reply.Effect effect.Pending) ∷ Replies (reply.Effect effect.Merged)
        ∷ Replies reply.Blocks ∷ Returns (reply.Value (pos 0)) ∷ Replies (reply.Effect effect.Ended) ∷ Replies reply.Done
        ∷ Replies reply.Esrch ∷ [])
        ≡ call word.Create (arg.Word 0 ∷ arg.Name s ∷ arg.Num (pos 0) ∷ []) (reply.Value (pos 2))
        ∷ call word.Cancel (arg.Num (pos 2) ∷ []) (reply.Effect effect.Pending)
        ∷ call word.Cancel (arg.Num (pos 2) ∷ []) (reply.Effect effect.Merged)
        ∷ call word.Join (arg.Num (pos 2) ∷ []) reply.Blocks ∷ what.Ret (reply.Value (pos 0))
        ∷ call word.Cancel (arg.Num (pos 2) ∷ []) (reply.Effect effect.Ended)
        ∷ call word.Detach (arg.Num (pos 2) ∷ []) reply.Done ∷ what.Try 1 (at 19)
        ∷ call word.Cancel (arg.Num (pos 2) ∷ []) reply.Esrch ∷ what.Raise 1 existence_e ∷ what.Catch 1 1 (at 21)
        ∷ what.Say (pos 0) ∷ what.Endcatch 1 ∷ what.End (pos 0) ∷ [] }
{}

/// An error reply raises, or sets `err` alone where the interface is `status`.
#[tactic(auto, unfolding(crate::specs::Computing::remainder_words))]
pub fn interfaces()
    ensures exc { lines_of
        (script (item.Mutex m ∷ []) 0 (stmt.Dce (dce.MutexUnlock m) ∷ stmt.Say expr.Err ∷ []))
        (Replies reply.Eperm ∷ [])
        ≡ call word.MutexUnlock (arg.Name m ∷ []) reply.Eperm ∷ what.Raise 1 use_error_e ∷ what.Bottom 1 (negsuc 1)
        ∷ what.End (negsuc 1) ∷ [] }
    ensures status { lines_of
        (script (item.Interface interface.Status ∷ item.Mutex m ∷ []) 0 (stmt.Dce (dce.MutexUnlock m)
        ∷ stmt.Say expr.Err ∷ []))
        (Replies reply.Eperm ∷ [])
        ≡ call word.MutexUnlock (arg.Name m ∷ []) reply.Eperm ∷ what.Say (pos 1) ∷ what.End (pos 0) ∷ [] }
{}

/// The first runner of a once block is cancelled in it, and the next one runs the routine to its end.
#[tactic(auto, unfolding(crate::specs::Computing::remainder_words))]
pub fn once_routines()
    ensures unwound { lines_at
        (script (item.Once o ∷ routine r 0 (stmt.Dce (dce.DelayNp (num 10)) ∷ []) ∷ []) 0
        (stmt.Dce (dce.Once o r) ∷ stmt.Say (local 0) ∷ []))
        main (pos 1)
        (Runs o r ∷ Replies reply.Blocks ∷ Delivers ∷ [])
        ≡ call word.Once (arg.Name o ∷ arg.Name r ∷ []) reply.Done ∷ what.Once 1 o
        ∷ call word.DelayNp (arg.Num (pos 10) ∷ []) reply.Blocks ∷ what.Deliver 1 (at 4) ∷ what.Undone 1 1
        ∷ what.Bottom 1 (negsuc 0) ∷ what.End (negsuc 0) ∷ [] }
    ensures done { lines_at
        (script (item.Once o ∷ routine r 0 (stmt.Dce (dce.DelayNp (num 10)) ∷ []) ∷ []) 0
        (stmt.Dce (dce.Once o r) ∷ stmt.Say (local 0) ∷ []))
        main (pos 3)
        (Replies reply.Blocks ∷ ReturnsAndRuns o r ∷ Replies reply.Blocks ∷ Returns reply.Done ∷ [])
        ≡ call word.Once (arg.Name o ∷ arg.Name r ∷ []) reply.Blocks ∷ what.Ret reply.Done ∷ what.Once 1 o
        ∷ call word.DelayNp (arg.Num (pos 10) ∷ []) reply.Blocks ∷ what.Ret reply.Done ∷ what.Done 1 ∷ what.Say (pos 3)
        ∷ what.End (pos 0) ∷ [] }
{}

/// A destructor raises, another ends, and the thread keeps its value.
#[tactic(auto, unfolding(crate::specs::Computing::remainder_words))]
pub fn destructors()
    ensures { lines_of
        (script
        (item.Exception e ∷ item.Key k ∷ item.Key j
        ∷ routine r 0 (stmt.Raise e ∷ [])
        ∷ routine s 0 (stmt.Say (local 0) ∷ [])
        ∷ [])
        0
        (stmt.Dce (dce.Keycreate k (Some r))
        ∷ stmt.Dce (dce.Keycreate j (Some s))
        ∷ stmt.Dce (dce.Setspecific k (num 4))
        ∷ stmt.Dce (dce.Setspecific j (num 5))
        ∷ stmt.Return (num 9)
        ∷ []))
        (Replies reply.Done ∷ Replies reply.Done ∷ Replies reply.Done ∷ Replies reply.Done
        ∷ Destroys k r (pos 4) ∷ Destroys j s (pos 5) ∷ [])
        ≡ call word.Keycreate (arg.Name k ∷ arg.Name r ∷ []) reply.Done
        ∷ call word.Keycreate (arg.Name j ∷ arg.Name s ∷ []) reply.Done
        ∷ call word.Setspecific (arg.Name k ∷ arg.Num (pos 4) ∷ []) reply.Done
        ∷ call word.Setspecific (arg.Name j ∷ arg.Num (pos 5) ∷ []) reply.Done
        ∷ what.Destroy 1 k (pos 4) ∷ what.Raise 1 (Address e) ∷ what.Lost 1 1
        ∷ what.Destroy 2 j (pos 5) ∷ what.Say (pos 5) ∷ what.Enddes 2 ∷ what.End (pos 9) ∷ [] }
{}

/// A sum that is too large, a shared variable, and a returned sum.
#[tactic(auto, unfolding(crate::specs::Computing::remainder_words))]
pub fn sums_and_variables()
    ensures too_large { lines_of (script [] 0 (stmt.Say (expr.Two op.Add greatest (num 1)) ∷ [])) []
        ≡ what.Raise 1 intovf_e ∷ what.Bottom 1 (negsuc 1) ∷ what.End (negsuc 1) ∷ [] }
    ensures shared_variable { lines_of
        (script (item.Shared x (pos 2) ∷ []) 0 (stmt.Set (Shared x) (num 5) ∷ stmt.Say (shared x) ∷ [])) []
        ≡ what.Set (at 4) (pos 5) ∷ what.Say (pos 5) ∷ what.End (pos 0) ∷ [] }
    ensures returned { lines_at
        (script (routine s 0 (stmt.Return (expr.Two op.Add (local 0) (num 1)) ∷ []) ∷ []) 0 []) s (pos 4) []
        ≡ what.End (pos 5) ∷ [] }
{}
