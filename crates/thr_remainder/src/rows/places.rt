//! The next step: its line and its kind, step by step.

ghost use Rattle.std.specs.Prelude.{◌≡◌, pos, ◌∷◌, [], codes, None, Some, true, false};
ghost use Rattle.thr_values.specs.declared.history.What.TheVariants as what;
ghost use Rattle.thr_values.specs.declared.reply.Effect.TheVariants as effect;
ghost use Rattle.thr_values.specs.declared.reply.Reply.TheVariants as reply;
ghost use Rattle.thr_syntax.specs.declared.dce.DceCall.TheVariants as dce;
ghost use Rattle.thr_syntax.specs.declared.expr.Expr.TheVariants as expr;
ghost use Rattle.thr_syntax.specs.declared.expr.Var.TheVariants.{Local};
ghost use Rattle.thr_syntax.specs.declared.tree.Item.TheVariants as item;
ghost use Rattle.thr_syntax.specs.declared.tree.Stmt.TheVariants as stmt;
ghost use Rattle.thr_remainder.specs.Alone.{Destroys, Replies, Runs};
ghost use Rattle.thr_remainder.specs.Samples.{catch, catch_all, delivery_after, k, lines_after, local, named, nexts_after, num, o, r, routine, say, script};
ghost use Rattle.thr_remainder.specs.Starts.{at};

/// The line of the next step before each step: of the statement, or of what closes the body that ends.
#[tactic(auto, unfolding(crate::specs::Computing::remainder_words))]
pub fn lines_of_next_steps()
    ensures try_bodies { lines_after 10
        (script [] 0 (stmt.TryCatch (say 1 ∷ []) (catch_all [] ∷ []) ∷ stmt.TryFinally (say 2 ∷ []) (say 3 ∷ []) ∷ [])) []
        ≡ Some 3 ∷ Some 4 ∷ Some 5 ∷ Some 7 ∷ Some 8 ∷ Some 9 ∷ Some 10 ∷ Some 11 ∷ Some 12 ∷ None ∷ [] }
    ensures catch_bodies { lines_after 6
        (script [] 0 (stmt.TryCatch (stmt.Raise (named 0) ∷ []) (catch (named 6) [] ∷ catch (named 0) (say 1 ∷ [])
        ∷ catch_all [] ∷ []) ∷ [])) []
        ≡ Some 3 ∷ Some 4 ∷ Some 4 ∷ Some 7 ∷ Some 8 ∷ Some 10 ∷ [] }
    ensures last_catch_body { lines_after 6
        (script [] 0 (stmt.TryCatch (stmt.Raise (named 0) ∷ []) (catch (named 6) [] ∷ catch_all (say 1 ∷ []) ∷ [])
        ∷ [])) []
        ≡ Some 3 ∷ Some 4 ∷ Some 4 ∷ Some 7 ∷ Some 8 ∷ Some 9 ∷ [] }
    ensures loops { lines_after 6 (script [] 0 (stmt.While (num 1) (stmt.If (num 1) (say 1 ∷ []) None ∷ []) ∷ [])) []
        ≡ Some 3 ∷ Some 4 ∷ Some 5 ∷ Some 3 ∷ Some 4 ∷ Some 5 ∷ [] }
    ensures after_if { lines_after 4
        (script [] 0 (stmt.If (num 0) (say 1 ∷ []) (Some (say 2 ∷ say 3 ∷ [])) ∷ say 4 ∷ [])) []
        ≡ Some 3 ∷ Some 6 ∷ Some 7 ∷ Some 9 ∷ [] }
    ensures once_routine { lines_after 6
        (script (item.Once o ∷ routine r 2 (say 1 ∷ []) ∷ []) 0 (stmt.Dce (dce.Once o r) ∷ [])) (Runs o r ∷ [])
        ≡ Some 9 ∷ Some 6 ∷ Some 7 ∷ Some 7 ∷ Some 10 ∷ None ∷ [] }
    ensures destructor { lines_after 6 (script (item.Key k ∷ routine r 0 (say 1 ∷ [])
        ∷ []) 0 []) (Destroys k r (pos 1) ∷ [])
        ≡ Some 7 ∷ None ∷ Some 4 ∷ Some 5 ∷ Some 5 ∷ None ∷ [] }
{}

/// The kind of the next step before each step.
#[tactic(auto, unfolding(crate::specs::Computing::remainder_words))]
pub fn kinds_of_next_steps()
    ensures once_routine { nexts_after 6
        (script (item.Once o ∷ routine r 0 (say 1 ∷ []) ∷ []) 0 (stmt.Dce (dce.Once o r) ∷ [])) (Runs o r ∷ [])
        ≡ codes "shared" ∷ codes "shared" ∷ codes "quiet" ∷ codes "done" ∷ codes "quiet" ∷ codes "end" ∷ [] }
    ensures destructor { nexts_after 6 (script (item.Key k ∷ routine r 0 (say 1 ∷ [])
        ∷ []) 0 []) (Destroys k r (pos 1) ∷ [])
        ≡ codes "quiet" ∷ codes "end" ∷ codes "shared" ∷ codes "quiet" ∷ codes "quiet" ∷ codes "end" ∷ [] }
    ensures undone { nexts_after 6
        (script (item.Once o ∷ routine r 0 (stmt.Raise (named 6) ∷ []) ∷ []) 0 (stmt.Dce (dce.Once o r)
        ∷ [])) (Runs o r ∷ [])
        ≡ codes "shared" ∷ codes "quiet" ∷ codes "outward" ∷ codes "undone" ∷ codes "outward" ∷ codes "end" ∷ [] }
    ensures lost { nexts_after 5
        (script (item.Key k ∷ routine r 0 (stmt.Raise (named 6) ∷ []) ∷ []) 0 []) (Destroys k r (pos 1) ∷ [])
        ≡ codes "quiet" ∷ codes "end" ∷ codes "quiet" ∷ codes "outward" ∷ codes "end" ∷ [] }
    ensures caught { nexts_after 5 (script [] 0 (stmt.TryCatch (stmt.Raise (named 6) ∷ []) (catch_all [] ∷ []) ∷ [])) []
        ≡ codes "quiet" ∷ codes "quiet" ∷ codes "outward" ∷ codes "quiet" ∷ codes "quiet" ∷ [] }
    ensures point { nexts_after 1 (script [] 0 (stmt.Dce dce.Testcancel ∷ [])) [] ≡ codes "point" ∷ [] }
{}

/// A cancel that is delivered in place of a quiet step, or of the end of a body, has the line of that step.
#[tactic(auto, unfolding(crate::specs::Computing::remainder_words))]
pub fn deliveries()
    ensures in_place_of_set { delivery_after 5
        (script [] 1
        (stmt.Dce (dce.Setcancel false (Local 1)) ∷ stmt.Dce (dce.Setasynccancel true (Local 1))
        ∷ stmt.Dce (dce.Cancel expr.Me) ∷ stmt.Dce dce.Testcancel ∷ stmt.Dce (dce.Setcancel true (Local 1))
        ∷ stmt.Set (Local 1) (num 9) ∷ stmt.Say (local 1) ∷ []))
        (Replies (reply.Value (pos 1)) ∷ Replies (reply.Value (pos 0)) ∷ Replies (reply.Effect effect.Pending)
        ∷ Replies reply.Done ∷ Replies (reply.Value (pos 0)) ∷ [])
        ≡ what.Deliver 1 (at 9) ∷ [] }
    ensures at_the_end_of_a_try { delivery_after 2 (script [] 0 (stmt.TryFinally (say 1 ∷ []) (say 2 ∷ []) ∷ [])) []
        ≡ what.Deliver 1 (at 5) ∷ [] }
    ensures at_the_end { delivery_after 1 (script [] 0 (say 1 ∷ [])) [] ≡ what.Deliver 1 (at 4) ∷ [] }
{}
