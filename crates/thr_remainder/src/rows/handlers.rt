//! Tries: how they end by themselves, which clause catches, and what `this` and `reraise` mean.

ghost use Rattle.std.specs.Prelude.{◌≡◌, pos, negsuc, ◌∷◌, [], None};
ghost use Rattle.thr_values.specs.Exceptions.{cancel_e, pipe_e};
ghost use Rattle.thr_values.specs.declared.exception.Exc.TheVariants.{Address, Status};
ghost use Rattle.thr_values.specs.declared.history.What.TheVariants as what;
ghost use Rattle.thr_syntax.specs.declared.expr.ExcRef.TheVariants.{Named, This};
ghost use Rattle.thr_syntax.specs.declared.expr.Expr.TheVariants as expr;
ghost use Rattle.thr_syntax.specs.declared.tree.Item.TheVariants as item;
ghost use Rattle.thr_syntax.specs.declared.tree.Stmt.TheVariants as stmt;
ghost use Rattle.thr_remainder.specs.Places.{Finally, nothing};
ghost use Rattle.thr_remainder.specs.Remainders.{Calling, Catching, Trying, caught_in};
ghost use Rattle.thr_remainder.specs.Samples.{a, b, catch, catch_all, lines_of, named, num, r, routine, say, script};
ghost use Rattle.thr_remainder.specs.Starts.{at};

/// Bodies that end by themselves.
#[tactic(auto, unfolding(crate::specs::Computing::remainder_words))]
pub fn normal_ends()
    ensures catches { lines_of (script [] 0 (stmt.TryCatch (say 1 ∷ []) (catch_all (say 2 ∷ []) ∷ []) ∷ say 3 ∷ [])) []
        ≡ what.Try 1 (at 3) ∷ what.Say (pos 1) ∷ what.Endtry 1 ∷ what.Say (pos 3) ∷ what.End (pos 0) ∷ [] }
    ensures finally { lines_of (script [] 0 (stmt.TryFinally (say 1 ∷ []) (say 2 ∷ []) ∷ say 3 ∷ [])) []
        ≡ what.Try 1 (at 3) ∷ what.Say (pos 1) ∷ what.Finally 1 0 ∷ what.Say (pos 2) ∷ what.Endfin 1 ∷ what.Say (pos 3)
        ∷ what.End (pos 0) ∷ [] }
    ensures empty_bodies { lines_of (script [] 0 (stmt.TryFinally (stmt.TryCatch [] (catch_all [] ∷ []) ∷ []) [] ∷ [])) []
        ≡ what.Try 1 (at 3) ∷ what.Try 2 (at 4) ∷ what.Endtry 2 ∷ what.Finally 1 0 ∷ what.Endfin 1 ∷ what.End (pos 0)
        ∷ [] }
    ensures caught { lines_of (script [] 0 (stmt.TryCatch (stmt.Raise (named 6) ∷ []) (catch_all (say 2 ∷ []) ∷ [])
        ∷ say 3 ∷ [])) []
        ≡ what.Try 1 (at 3) ∷ what.Raise 1 pipe_e ∷ what.Catch 1 1 (at 5) ∷ what.Say (pos 2) ∷ what.Endcatch 1
        ∷ what.Say (pos 3) ∷ what.End (pos 0) ∷ [] }
    ensures pending { lines_of (script [] 0 (stmt.TryFinally (stmt.Raise (named 6) ∷ []) (say 2 ∷ []) ∷ say 3 ∷ [])) []
        ≡ what.Try 1 (at 3) ∷ what.Raise 1 pipe_e ∷ what.Finally 1 1 ∷ what.Say (pos 2) ∷ what.Endfin 1
        ∷ what.Bottom 1 (negsuc 1) ∷ what.End (negsuc 1) ∷ [] }
{}

/// Which clause catches: the first that names a matching exception or is `catch_all`.
#[tactic(auto, unfolding(crate::specs::Computing::remainder_words))]
pub fn clauses()
    ensures second { lines_of
        (script (item.Exception a ∷ item.Exception b ∷ []) 0
        (stmt.TryCatch (stmt.Raise b ∷ []) (catch a (say 1 ∷ []) ∷ catch b (say 2 ∷ []) ∷ catch_all (say 3 ∷ [])
        ∷ []) ∷ [])) []
        ≡ what.Try 1 (at 5) ∷ what.Raise 1 (Address b) ∷ what.Catch 1 1 (at 9) ∷ what.Say (pos 2) ∷ what.Endcatch 1
        ∷ what.End (pos 0) ∷ [] }
    ensures all { lines_of
        (script (item.Exception a ∷ item.Exception b ∷ []) 0
        (stmt.TryCatch (stmt.Raise (named 6) ∷ []) (catch a (say 1 ∷ []) ∷ catch b (say 2 ∷ []) ∷ catch_all (say 3
        ∷ []) ∷ []) ∷ [])) []
        ≡ what.Try 1 (at 5) ∷ what.Raise 1 pipe_e ∷ what.Catch 1 1 (at 11) ∷ what.Say (pos 3) ∷ what.Endcatch 1
        ∷ what.End (pos 0) ∷ [] }
    ensures same_twice { lines_of
        (script (item.Status a (pos 5) ∷ item.Status b (pos 5) ∷ []) 0
        (stmt.TryCatch (stmt.Raise b ∷ []) (catch a (say 1 ∷ []) ∷ catch b (say 2 ∷ []) ∷ []) ∷ [])) []
        ≡ what.Try 1 (at 5) ∷ what.Raise 1 (Status (pos 5)) ∷ what.Catch 1 1 (at 7) ∷ what.Say (pos 1) ∷ what.Endcatch 1
        ∷ what.End (pos 0) ∷ [] }
    ensures other_number { lines_of
        (script (item.Status a (pos 5) ∷ item.Status b (pos 6) ∷ []) 0
        (stmt.TryCatch (stmt.Raise b ∷ []) (catch a (say 1 ∷ []) ∷ []) ∷ [])) []
        ≡ what.Try 1 (at 5) ∷ what.Raise 1 (Status (pos 6)) ∷ what.Bottom 1 (negsuc 1) ∷ what.End (negsuc 1) ∷ [] }
    ensures address_and_status { lines_of
        (script (item.Exception a ∷ item.Status b (pos 10) ∷ []) 0
        (stmt.TryCatch (stmt.TryCatch (stmt.Raise a ∷ []) (catch b (say 1 ∷ []) ∷ []) ∷ []) (catch a (say 2 ∷ [])
        ∷ []) ∷ [])) []
        ≡ what.Try 1 (at 5) ∷ what.Try 2 (at 6) ∷ what.Raise 1 (Address a) ∷ what.Catch 1 1 (at 11) ∷ what.Say (pos 2)
        ∷ what.Endcatch 1 ∷ what.End (pos 0) ∷ [] }
{}

/// A raise in a catch body is not caught by the same try; `reraise` in blocks and tries nested in a catch body.
#[tactic(auto, unfolding(crate::specs::Computing::remainder_words))]
pub fn raises_in_catch_bodies()
    ensures raised { lines_of
        (script (item.Exception a ∷ item.Exception b ∷ []) 0
        (stmt.TryCatch
        (stmt.TryCatch (stmt.Raise a ∷ []) (catch_all (stmt.Raise b ∷ []) ∷ []) ∷ [])
        (catch b (say 1 ∷ []) ∷ [])
        ∷ [])) []
        ≡ what.Try 1 (at 5) ∷ what.Try 2 (at 6) ∷ what.Raise 1 (Address a) ∷ what.Catch 2 1 (at 8)
        ∷ what.Raise 2 (Address b)
        ∷ what.Catch 1 2 (at 11) ∷ what.Say (pos 1) ∷ what.Endcatch 1 ∷ what.End (pos 0) ∷ [] }
    ensures raised_again { lines_of
        (script (item.Exception a ∷ []) 0
        (stmt.TryCatch
        (stmt.TryCatch
        (stmt.Raise a ∷ [])
        (catch_all
        (stmt.While (num 1)
        (stmt.If (num 1) (stmt.TryCatch (stmt.Reraise ∷ []) (catch (named 6) [] ∷ []) ∷ []) None ∷ [])
        ∷ [])
        ∷ [])
        ∷ [])
        (catch a (say 1 ∷ []) ∷ [])
        ∷ [])) []
        ≡ what.Try 1 (at 4) ∷ what.Try 2 (at 5) ∷ what.Raise 1 (Address a) ∷ what.Catch 2 1 (at 7) ∷ what.Try 3 (at 10)
        ∷ what.Reraise 2 (Address a) ∷ what.Catch 1 2 (at 17) ∷ what.Say (pos 1) ∷ what.Endcatch 1 ∷ what.End (pos 0)
        ∷ [] }
{}

/// `this` is what the innermost catch body of the routine has caught.
#[tactic(auto, unfolding(crate::specs::Computing::remainder_words))]
pub fn this_exception()
    ensures not_beyond_the_call { caught_in
        (record { role = Trying 2 (Finally (nothing 5)); inside = nothing 4 }
        ∷ record { role = Calling [] None; inside = nothing 6 }
        ∷ record { role = Catching 1 pipe_e; inside = nothing 9 }
        ∷ record { role = Calling [] None; inside = nothing 10 }
        ∷ [])
        ≡ cancel_e }
    ensures in_finally_body { lines_of
        (script (item.Status a (pos 7) ∷ []) 0
        (stmt.TryCatch (stmt.Raise a ∷ [])
        (catch_all (stmt.TryFinally (say 1 ∷ []) (stmt.Say (expr.GetStatus This) ∷ []) ∷ []) ∷ [])
        ∷ [])) []
        ≡ what.Try 1 (at 4) ∷ what.Raise 1 (Status (pos 7)) ∷ what.Catch 1 1 (at 6) ∷ what.Try 2 (at 7) ∷ what.Say (pos 1)
        ∷ what.Finally 2 0 ∷ what.Say (pos 7) ∷ what.Endfin 2 ∷ what.Endcatch 1 ∷ what.End (pos 0) ∷ [] }
    ensures in_finally_body_of_another { lines_of
        (script (item.Status a (pos 7) ∷ item.Status b (pos 8) ∷ []) 0
        (stmt.TryCatch (stmt.Raise a ∷ [])
        (catch_all
        (stmt.TryCatch
        (stmt.TryFinally (stmt.Raise b ∷ []) (stmt.Say (expr.GetStatus This) ∷ []) ∷ [])
        (catch_all [] ∷ [])
        ∷ [])
        ∷ [])
        ∷ [])) []
        ≡ what.Try 1 (at 5) ∷ what.Raise 1 (Status (pos 7)) ∷ what.Catch 1 1 (at 7) ∷ what.Try 2 (at 8)
        ∷ what.Try 3 (at 9)
        ∷ what.Raise 2 (Status (pos 8)) ∷ what.Finally 3 2 ∷ what.Say (pos 7) ∷ what.Endfin 3 ∷ what.Catch 2 2 (at 14)
        ∷ what.Endcatch 2 ∷ what.Endcatch 1 ∷ what.End (pos 0) ∷ [] }
    ensures innermost { lines_of
        (script (item.Status a (pos 7) ∷ item.Status b (pos 8) ∷ []) 0
        (stmt.TryCatch (stmt.Raise a ∷ [])
        (catch_all
        (stmt.TryCatch (stmt.Raise b ∷ []) (catch_all (stmt.Say (expr.GetStatus This) ∷ []) ∷ [])
        ∷ stmt.Say (expr.GetStatus This)
        ∷ [])
        ∷ [])
        ∷ [])) []
        ≡ what.Try 1 (at 5) ∷ what.Raise 1 (Status (pos 7)) ∷ what.Catch 1 1 (at 7) ∷ what.Try 2 (at 8)
        ∷ what.Raise 2 (Status (pos 8)) ∷ what.Catch 2 2 (at 10) ∷ what.Say (pos 8) ∷ what.Endcatch 2 ∷ what.Say (pos 7)
        ∷ what.Endcatch 1 ∷ what.End (pos 0) ∷ [] }
    ensures of_the_caller { lines_of
        (script
        (item.Status a (pos 7) ∷ item.Status b (pos 8)
        ∷ routine r 0 (stmt.TryCatch (stmt.Raise b ∷ []) (catch_all (stmt.Say (expr.GetStatus This) ∷ []) ∷ []) ∷ [])
        ∷ [])
        0
        (stmt.TryCatch (stmt.Raise a ∷ [])
        (catch_all (stmt.Call r (num 0) None ∷ stmt.Say (expr.Matches This (Named a)) ∷ []) ∷ [])
        ∷ [])) []
        ≡ what.Try 1 (at 12) ∷ what.Raise 1 (Status (pos 7)) ∷ what.Catch 1 1 (at 14) ∷ what.Try 2 (at 5)
        ∷ what.Raise 2 (Status (pos 8)) ∷ what.Catch 2 2 (at 7) ∷ what.Say (pos 8) ∷ what.Endcatch 2 ∷ what.Say (pos 1)
        ∷ what.Endcatch 1 ∷ what.End (pos 0) ∷ [] }
{}
