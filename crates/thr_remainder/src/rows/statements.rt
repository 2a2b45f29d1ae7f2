//! Statements: which are quiet, which are shared and which are points; what a shared one tells; and faults.

ghost use Rattle.std.specs.Prelude.{◌≡◌, pos, negsuc, ◌∷◌, [], codes, None, Some};
ghost use Rattle.thr_values.specs.Exceptions.{intdiv_e, intovf_e};
ghost use Rattle.thr_values.specs.declared.history.What.TheVariants as what;
ghost use Rattle.thr_syntax.specs.declared.dce.DceCall.TheVariants as dce;
ghost use Rattle.thr_syntax.specs.declared.expr.Expr.TheVariants as expr;
ghost use Rattle.thr_syntax.specs.declared.expr.Op.TheVariants as op;
ghost use Rattle.thr_syntax.specs.declared.expr.Var.TheVariants.{Local, Shared};
ghost use Rattle.thr_syntax.specs.declared.tree.Item.TheVariants as item;
ghost use Rattle.thr_syntax.specs.declared.tree.Stmt.TheVariants as stmt;
ghost use Rattle.thr_remainder.specs.Samples.{c, catch, catch_all, kind_of, lines_of, local, m, main, named, num, o, p, r, routine, say, script, shared, two, x};
ghost use Rattle.thr_remainder.specs.Starts.{at};

/// Quiet statements: what stands in their bodies doesn't count.
#[tactic(auto, unfolding(crate::specs::Computing::remainder_words))]
pub fn quiet_statements()
    ensures set { kind_of (stmt.Set (Local 0) (expr.Two op.Add (local 1) expr.Err)) ≡ codes "quiet" }
    ensures if_with_say { kind_of (stmt.If (local 0) (say 1 ∷ []) None) ≡ codes "quiet" }
    ensures while_with_set { kind_of (stmt.While expr.Me (stmt.Set (Shared x) (num 1) ∷ [])) ≡ codes "quiet" }
    ensures try_with_calls { kind_of (stmt.TryCatch (stmt.Dce dce.Testcancel ∷ []) (catch_all (say 1 ∷ []) ∷ []))
        ≡ codes "quiet" }
    ensures try_finally { kind_of (stmt.TryFinally (say 1 ∷ []) (say 2 ∷ [])) ≡ codes "quiet" }
    ensures raise { kind_of (stmt.Raise (named 6)) ≡ codes "quiet" }
    ensures reraise { kind_of stmt.Reraise ≡ codes "quiet" }
    ensures call { kind_of (stmt.Call main (local 0) (Some 1)) ≡ codes "quiet" }
    ensures return_local { kind_of (stmt.Return (local 0)) ≡ codes "quiet" }
    ensures exit { kind_of (stmt.Exit (num 0)) ≡ codes "quiet" }
{}

/// Shared statements.
#[tactic(auto, unfolding(crate::specs::Computing::remainder_words))]
pub fn shared_statements()
    ensures say { kind_of (say 1) ≡ codes "shared" }
    ensures set { kind_of (stmt.Set (Shared x) (num 1)) ≡ codes "shared" }
    ensures set_local { kind_of (stmt.Set (Local 0) (expr.Not (expr.Two op.Add (num 1) (shared x)))) ≡ codes "shared" }
    ensures if_shared { kind_of (stmt.If (shared x) [] None) ≡ codes "shared" }
    ensures while_shared { kind_of (stmt.While (shared x) []) ≡ codes "shared" }
    ensures call { kind_of (stmt.Call main (shared x) None) ≡ codes "shared" }
    ensures return_shared { kind_of (stmt.Return (shared x)) ≡ codes "shared" }
    ensures exit { kind_of (stmt.Exit (shared x)) ≡ codes "shared" }
    ensures lock { kind_of (stmt.Dce (dce.MutexLock m)) ≡ codes "shared" }
    ensures once { kind_of (stmt.Dce (dce.Once o r)) ≡ codes "shared" }
    ensures cancel { kind_of (stmt.Dce (dce.Cancel expr.Me)) ≡ codes "shared" }
{}

/// Points.
#[tactic(auto, unfolding(crate::specs::Computing::remainder_words))]
pub fn points()
    ensures testcancel { kind_of (stmt.Dce dce.Testcancel) ≡ codes "point" }
    ensures wait { kind_of (stmt.Dce (dce.CondWait c m)) ≡ codes "point" }
    ensures timed_wait { kind_of (stmt.Dce (dce.CondTimedwait c m (num 5))) ≡ codes "point" }
    ensures join { kind_of (stmt.Dce (dce.Join (num 2) (Local 1))) ≡ codes "point" }
    ensures delay { kind_of (stmt.Dce (dce.DelayNp (num 5))) ≡ codes "point" }
    ensures read { kind_of (stmt.Dce (dce.Read p (Local 0) (Local 1))) ≡ codes "point" }
    ensures write { kind_of (stmt.Dce (dce.Write p (num 5))) ≡ codes "point" }
{}

/// A shared statement tells the value of its expression, and a quiet one nothing.
#[tactic(auto, unfolding(crate::specs::Computing::remainder_words))]
pub fn told_values()
    ensures shared_ones { lines_of
        (script
        (item.Shared x (pos 0)
        ∷ routine r 0 (stmt.Return (expr.Two op.Add (local 0) (shared x)) ∷ [])
        ∷ [])
        1
        (stmt.Set (Shared x) (num 2)
        ∷ stmt.Set (Local 1) (shared x)
        ∷ stmt.If (expr.Two op.Equal (shared x) (num 2)) (stmt.Say (local 1) ∷ []) (Some (say 0 ∷ []))
        ∷ stmt.While (shared x) (stmt.Set (Shared x) (expr.Two op.Sub (shared x) (num 1)) ∷ [])
        ∷ stmt.Call r (expr.Two op.Add (shared x) (num 4)) (Some 1)
        ∷ stmt.Say (local 1)
        ∷ stmt.Exit (expr.Two op.Add (shared x) (num 7))
        ∷ []))
        []
        ≡ what.Set (at 8) (pos 2) ∷ what.Set (at 9) (pos 2) ∷ what.If (at 10) (pos 1) ∷ what.Say (pos 2)
        ∷ what.While (at 15) (pos 2) ∷ what.Set (at 16) (pos 1) ∷ what.While (at 15) (pos 1) ∷ what.Set (at 16) (pos 0)
        ∷ what.While (at 15) (pos 0) ∷ what.CallAt (at 18) (pos 4) ∷ what.Return (at 4) (pos 4) ∷ what.Say (pos 4)
        ∷ what.Exit 1 (pos 7) ∷ what.Bottom 1 (pos 7) ∷ what.End (pos 7) ∷ [] }
    ensures quiet_ones { lines_of
        (script (routine r 0 (stmt.Return (expr.Two op.Add (local 0) (num 1)) ∷ []) ∷ []) 1
        (stmt.Set (Local 1) (num 2)
        ∷ stmt.While (local 1)
        (stmt.If (expr.Two op.Equal (local 1) (num 2)) (say 5 ∷ []) (Some (say 6 ∷ []))
        ∷ stmt.Set (Local 1) (expr.Two op.Sub (local 1) (num 1))
        ∷ [])
        ∷ stmt.Call r (num 4) (Some 1)
        ∷ stmt.Return (local 1)
        ∷ []))
        []
        ≡ what.Say (pos 5) ∷ what.Say (pos 6) ∷ what.End (pos 5) ∷ [] }
    ensures other_branch { lines_of
        (script (item.Shared x (pos 0) ∷ []) 0
        (stmt.If (shared x) (say 1 ∷ []) (Some (say 2 ∷ [])) ∷ stmt.If (shared x) (say 3 ∷ []) None ∷ say 4 ∷ [])) []
        ≡ what.If (at 4) (pos 0) ∷ what.Say (pos 2) ∷ what.If (at 9) (pos 0) ∷ what.Say (pos 4) ∷ what.End (pos 0) ∷ [] }
{}

/// A fault is raised in the statement's place, and the statement does nothing else.
#[tactic(auto, unfolding(crate::specs::Computing::remainder_words))]
pub fn faults()
    ensures say { lines_of (script [] 0 (stmt.Say (two op.Div 1 0) ∷ [])) []
        ≡ what.Raise 1 intdiv_e ∷ what.Bottom 1 (negsuc 1) ∷ what.End (negsuc 1) ∷ [] }
    ensures shared_set { lines_of
        (script (item.Shared x (pos 0) ∷ []) 0
        (stmt.Set (Shared x) (num 3)
        ∷ stmt.TryCatch (stmt.Set (Shared x) (expr.Two op.Div (shared x) (num 0)) ∷ [])
        (catch (named 8) (stmt.Say (shared x) ∷ []) ∷ [])
        ∷ []))
        []
        ≡ what.Set (at 4) (pos 3) ∷ what.Try 1 (at 5) ∷ what.Raise 1 intdiv_e ∷ what.Catch 1 1 (at 7) ∷ what.Say (pos 3)
        ∷ what.Endcatch 1 ∷ what.End (pos 0) ∷ [] }
    ensures quiet_set { lines_of
        (script [] 0
        (stmt.Set (Local 0) (num 3)
        ∷ stmt.TryCatch (stmt.Set (Local 0) (two op.Rem 1 0) ∷ []) (catch (named 8) (stmt.Say (local 0) ∷ []) ∷ [])
        ∷ []))
        []
        ≡ what.Try 1 (at 4) ∷ what.Raise 1 intdiv_e ∷ what.Catch 1 1 (at 6) ∷ what.Say (pos 3) ∷ what.Endcatch 1
        ∷ what.End (pos 0) ∷ [] }
    ensures if_faulty { lines_of (script [] 0 (stmt.If (two op.Div 1 0) (say 1 ∷ []) (Some (say 2 ∷ [])) ∷ [])) []
        ≡ what.Raise 1 intdiv_e ∷ what.Bottom 1 (negsuc 1) ∷ what.End (negsuc 1) ∷ [] }
    ensures while_faulty { lines_of (script [] 0 (stmt.While (two op.Div 1 0) (say 1 ∷ []) ∷ [])) []
        ≡ what.Raise 1 intdiv_e ∷ what.Bottom 1 (negsuc 1) ∷ what.End (negsuc 1) ∷ [] }
    ensures call { lines_of (script [] 0 (stmt.Call main (two op.Div 1 0) None ∷ [])) []
        ≡ what.Raise 1 intdiv_e ∷ what.Bottom 1 (negsuc 1) ∷ what.End (negsuc 1) ∷ [] }
    ensures return_faulty { lines_of (script [] 0 (stmt.Return (two op.Div 1 0) ∷ [])) []
        ≡ what.Raise 1 intdiv_e ∷ what.Bottom 1 (negsuc 1) ∷ what.End (negsuc 1) ∷ [] }
    ensures exit { lines_of (script [] 0 (stmt.Exit (two op.Div 1 0) ∷ [])) []
        ≡ what.Raise 1 intdiv_e ∷ what.Bottom 1 (negsuc 1) ∷ what.End (negsuc 1) ∷ [] }
{}
