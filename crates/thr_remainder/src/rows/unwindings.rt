//! Unwindings: what each item does to one, and the value that is left at the bottom.

ghost use Rattle.std.specs.Prelude.{◌≡◌, pos, negsuc, ◌∷◌, [], None};
ghost use Rattle.thr_values.specs.Exceptions.{cancel_e, pipe_e};
ghost use Rattle.thr_values.specs.declared.call.Arg.TheVariants as arg;
ghost use Rattle.thr_values.specs.declared.call.CallWord.TheVariants as word;
ghost use Rattle.thr_values.specs.declared.exception.Exc.TheVariants.{Address, Status};
ghost use Rattle.thr_values.specs.declared.history.What.TheVariants as what;
ghost use Rattle.thr_values.specs.declared.reply.Reply.TheVariants as reply;
ghost use Rattle.thr_syntax.specs.declared.dce.DceCall.TheVariants as dce;
ghost use Rattle.thr_syntax.specs.declared.tree.Item.TheVariants as item;
ghost use Rattle.thr_syntax.specs.declared.tree.Stmt.TheVariants as stmt;
ghost use Rattle.thr_remainder.specs.Alone.{Delivers, Destroys, Runs};
ghost use Rattle.thr_remainder.specs.Samples.{a, b, c, call, catch, catch_all, k, lines_of, named, num, o, r, routine, say, script};
ghost use Rattle.thr_remainder.specs.Starts.{at};

/// With no item left the thread's value is -1 for `cancel_e`, -2 for any other exception, and that of an exit.
#[tactic(auto, unfolding(crate::specs::Computing::remainder_words))]
pub fn bottoms()
    ensures address { lines_of (script (item.Exception a ∷ []) 0 (stmt.Raise a ∷ [])) []
        ≡ what.Raise 1 (Address a) ∷ what.Bottom 1 (negsuc 1) ∷ what.End (negsuc 1) ∷ [] }
    ensures status { lines_of (script (item.Status a (pos 0) ∷ []) 0 (stmt.Raise a ∷ [])) []
        ≡ what.Raise 1 (Status (pos 0)) ∷ what.Bottom 1 (negsuc 1) ∷ what.End (negsuc 1) ∷ [] }
    ensures cancel { lines_of (script [] 0 (stmt.Dce dce.Testcancel ∷ [])) (Delivers ∷ [])
        ≡ what.Deliver 1 (at 3) ∷ what.Bottom 1 (negsuc 0) ∷ what.End (negsuc 0) ∷ [] }
    ensures raised_cancel { lines_of (script [] 0 (stmt.Raise (named 0) ∷ [])) []
        ≡ what.Raise 1 cancel_e ∷ what.Bottom 1 (negsuc 0) ∷ what.End (negsuc 0) ∷ [] }
    ensures exit { lines_of (script [] 0 (stmt.Exit (num 8) ∷ say 1 ∷ [])) []
        ≡ what.Exit 1 (pos 8) ∷ what.Bottom 1 (pos 8) ∷ what.End (pos 8) ∷ [] }
{}

/// Calls are dropped; an exit passes every catch clause and runs FINALLY bodies; a try in a catch body is dropped.
#[tactic(auto, unfolding(crate::specs::Computing::remainder_words))]
pub fn dropped_items()
    ensures calls { lines_of
        (script
        (item.Exception a ∷ routine b 0 (stmt.Raise a ∷ []) ∷ routine c 0 (stmt.Call b (num 0) None ∷ say 1 ∷ []) ∷ [])
        0
        (stmt.TryCatch (stmt.Call c (num 0) None ∷ say 2 ∷ []) (catch a (say 3 ∷ []) ∷ []) ∷ [])) []
        ≡ what.Try 1 (at 11) ∷ what.Raise 1 (Address a) ∷ what.Catch 1 1 (at 14) ∷ what.Say (pos 3) ∷ what.Endcatch 1
        ∷ what.End (pos 0) ∷ [] }
    ensures exit_through_finally { lines_of
        (script [] 0
        (stmt.TryFinally (stmt.TryCatch (stmt.Exit (num 8) ∷ []) (catch_all (say 1 ∷ []) ∷ []) ∷ []) (say 2 ∷ [])
        ∷ [])) []
        ≡ what.Try 1 (at 3) ∷ what.Try 2 (at 4) ∷ what.Exit 1 (pos 8) ∷ what.Finally 1 1 ∷ what.Say (pos 2)
        ∷ what.Endfin 1
        ∷ what.Bottom 1 (pos 8) ∷ what.End (pos 8) ∷ [] }
    ensures exit_in_catch_body { lines_of
        (script [] 0
        (stmt.TryFinally
        (stmt.TryCatch (stmt.Raise (named 6) ∷ []) (catch_all (stmt.Exit (num 8) ∷ []) ∷ []) ∷ [])
        (say 2 ∷ [])
        ∷ [])) []
        ≡ what.Try 1 (at 3) ∷ what.Try 2 (at 4) ∷ what.Raise 1 pipe_e ∷ what.Catch 2 1 (at 6) ∷ what.Exit 2 (pos 8)
        ∷ what.Finally 1 2 ∷ what.Say (pos 2) ∷ what.Endfin 1 ∷ what.Bottom 2 (pos 8) ∷ what.End (pos 8) ∷ [] }
{}

/// An unwinding that was pending in a FINALLY body is replaced by one that leaves the body, and by no other.
#[tactic(auto, unfolding(crate::specs::Computing::remainder_words))]
pub fn replaced_unwindings()
    ensures exit_replaced { lines_of
        (script (item.Exception a ∷ []) 0 (stmt.TryFinally (stmt.Exit (num 8) ∷ []) (stmt.Raise a ∷ []) ∷ [])) []
        ≡ what.Try 1 (at 4) ∷ what.Exit 1 (pos 8) ∷ what.Finally 1 1 ∷ what.Raise 2 (Address a) ∷ what.Bottom 2 (negsuc 1)
        ∷ what.End (negsuc 1) ∷ [] }
    ensures caught_inside { lines_of
        (script (item.Exception a ∷ item.Exception b ∷ []) 0
        (stmt.TryFinally (stmt.Raise a ∷ []) (stmt.TryCatch (stmt.Raise b ∷ []) (catch b [] ∷ []) ∷ []) ∷ [])) []
        ≡ what.Try 1 (at 5) ∷ what.Raise 1 (Address a) ∷ what.Finally 1 1 ∷ what.Try 2 (at 8) ∷ what.Raise 2 (Address b)
        ∷ what.Catch 2 2 (at 10) ∷ what.Endcatch 2 ∷ what.Endfin 1 ∷ what.Bottom 1 (negsuc 1) ∷ what.End (negsuc 1) ∷ [] }
    ensures twice { lines_of
        (script (item.Exception a ∷ item.Exception b ∷ item.Exception c ∷ []) 0
        (stmt.TryCatch
        (stmt.TryFinally (stmt.TryFinally (stmt.Raise a ∷ []) (stmt.Raise b ∷ []) ∷ []) (stmt.Raise c ∷ []) ∷ [])
        (catch b (say 1 ∷ []) ∷ catch c (say 2 ∷ []) ∷ [])
        ∷ [])) []
        ≡ what.Try 1 (at 6) ∷ what.Try 2 (at 7) ∷ what.Try 3 (at 8) ∷ what.Raise 1 (Address a) ∷ what.Finally 3 1
        ∷ what.Raise 2 (Address b) ∷ what.Finally 2 2 ∷ what.Raise 3 (Address c) ∷ what.Catch 1 3 (at 18)
        ∷ what.Say (pos 2)
        ∷ what.Endcatch 1 ∷ what.End (pos 0) ∷ [] }
    ensures in_nested_finally { lines_of
        (script (item.Exception a ∷ item.Exception b ∷ []) 0
        (stmt.TryFinally (stmt.Raise a ∷ []) (stmt.TryFinally (stmt.Raise b ∷ []) (say 1 ∷ []) ∷ say 2 ∷ []) ∷ [])) []
        ≡ what.Try 1 (at 5) ∷ what.Raise 1 (Address a) ∷ what.Finally 1 1 ∷ what.Try 2 (at 8) ∷ what.Raise 2 (Address b)
        ∷ what.Finally 2 2 ∷ what.Say (pos 1) ∷ what.Endfin 2 ∷ what.Bottom 2 (negsuc 1) ∷ what.End (negsuc 1) ∷ [] }
    ensures after_normal_end { lines_of
        (script (item.Exception a ∷ []) 0 (stmt.TryFinally [] (stmt.Raise a ∷ []) ∷ [])) []
        ≡ what.Try 1 (at 4) ∷ what.Finally 1 0 ∷ what.Raise 1 (Address a) ∷ what.Bottom 1 (negsuc 1) ∷ what.End (negsuc 1)
        ∷ [] }
{}

/// A once block is undone and the unwinding goes on; at a destructor it is lost.
#[tactic(auto, unfolding(crate::specs::Computing::remainder_words))]
pub fn once_and_destructors()
    ensures undone_and_caught { lines_of
        (script (item.Exception a ∷ item.Once o ∷ routine r 0 (stmt.Raise a ∷ []) ∷ []) 0
        (stmt.TryCatch (stmt.Dce (dce.Once o r) ∷ []) (catch a (say 1 ∷ []) ∷ []) ∷ [])) (Runs o r ∷ [])
        ≡ what.Try 1 (at 8) ∷ call word.Once (arg.Name o ∷ arg.Name r ∷ []) reply.Done ∷ what.Once 2 o
        ∷ what.Raise 1 (Address a) ∷ what.Undone 2 1 ∷ what.Catch 1 1 (at 10) ∷ what.Say (pos 1) ∷ what.Endcatch 1
        ∷ what.End (pos 0) ∷ [] }
    ensures undone_by_exit { lines_of
        (script (item.Once o ∷ routine r 0 (stmt.TryFinally (stmt.Exit (num 4) ∷ []) [] ∷ []) ∷ []) 0
        (stmt.Dce (dce.Once o r) ∷ [])) (Runs o r ∷ [])
        ≡ call word.Once (arg.Name o ∷ arg.Name r ∷ []) reply.Done ∷ what.Once 1 o ∷ what.Try 2 (at 4)
        ∷ what.Exit 1 (pos 4) ∷ what.Finally 2 1 ∷ what.Endfin 2 ∷ what.Undone 1 1 ∷ what.Bottom 1 (pos 4)
        ∷ what.End (pos 4)
        ∷ [] }
    ensures exit_lost { lines_of
        (script (item.Key k ∷ routine r 0 (stmt.Exit (num 4) ∷ []) ∷ []) 0 (stmt.Return (num 9)
        ∷ [])) (Destroys k r (pos 2) ∷ [])
        ≡ what.Destroy 1 k (pos 2) ∷ what.Exit 1 (pos 4) ∷ what.Lost 1 1 ∷ what.End (pos 9) ∷ [] }
    ensures lost_after_the_bottom { lines_of
        (script (item.Exception a ∷ item.Key k ∷ routine r 0 (stmt.Return (num 4) ∷ []) ∷ []) 0 (stmt.Raise a ∷ []))
        (Destroys k r (pos 2) ∷ [])
        ≡ what.Raise 1 (Address a) ∷ what.Bottom 1 (negsuc 1) ∷ what.Destroy 1 k (pos 2) ∷ what.Enddes 1
        ∷ what.End (negsuc 1) ∷ [] }
    ensures caught_in_a_destructor { lines_of
        (script
        (item.Exception a ∷ item.Key k
        ∷ routine r 0 (stmt.TryCatch (stmt.Raise a ∷ []) (catch_all [] ∷ []) ∷ [])
        ∷ [])
        0 []) (Destroys k r (pos 2) ∷ [])
        ≡ what.Destroy 1 k (pos 2) ∷ what.Try 2 (at 5) ∷ what.Raise 1 (Address a) ∷ what.Catch 2 1 (at 7)
        ∷ what.Endcatch 2
        ∷ what.Enddes 1 ∷ what.End (pos 0) ∷ [] }
{}
