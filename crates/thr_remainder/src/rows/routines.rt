//! Calls of routines: values, locals, and the frames of the stack.

ghost use Rattle.std.specs.Prelude.{◌≡◌, pos, negsuc, ◌∷◌, [], None, Some};
ghost use Rattle.thr_values.specs.Exceptions.{intdiv_e, stackovf_e};
ghost use Rattle.thr_values.specs.declared.call.Arg.TheVariants as arg;
ghost use Rattle.thr_values.specs.declared.call.CallWord.TheVariants as word;
ghost use Rattle.thr_values.specs.declared.history.What.TheVariants as what;
ghost use Rattle.thr_values.specs.declared.reply.Reply.TheVariants as reply;
ghost use Rattle.thr_syntax.specs.declared.dce.DceCall.TheVariants as dce;
ghost use Rattle.thr_syntax.specs.declared.expr.Expr.TheVariants as expr;
ghost use Rattle.thr_syntax.specs.declared.expr.Op.TheVariants as op;
ghost use Rattle.thr_syntax.specs.declared.expr.Var.TheVariants.{Local};
ghost use Rattle.thr_syntax.specs.declared.tree.Interface.TheVariants as interface;
ghost use Rattle.thr_syntax.specs.declared.tree.Item.TheVariants as item;
ghost use Rattle.thr_syntax.specs.declared.tree.Stmt.TheVariants as stmt;
ghost use Rattle.thr_remainder.specs.Alone.{Replies, Runs};
ghost use Rattle.thr_remainder.specs.Places.{nothing};
ghost use Rattle.thr_remainder.specs.Remainders.{Calling};
ghost use Rattle.thr_remainder.specs.Samples.{b, c, call, catch, catch_all, lines_at, lines_of, lines_within, local, main, named, num, o, r, routine, say, script, setting_of, shared, two, x};
ghost use Rattle.thr_remainder.specs.Steps.{quiet};
ghost use Rattle.thr_remainder.specs.Starts.{at};

/// What a call returns, and where it is stored.
#[tactic(auto, unfolding(crate::specs::Computing::remainder_words))]
pub fn returned_values()
    ensures stored { lines_of
        (script (routine r 0 (stmt.Return (expr.Two op.Mul (local 0) (num 2)) ∷ say 9 ∷ []) ∷ []) 1
        (stmt.Call r (num 5) (Some 1) ∷ stmt.Say (local 1) ∷ stmt.Say (local 0) ∷ [])) []
        ≡ what.Say (pos 10) ∷ what.Say (pos 0) ∷ what.End (pos 0) ∷ [] }
    ensures dropped { lines_of
        (script (routine r 0 (stmt.Return (num 2) ∷ []) ∷ []) 1
        (stmt.Set (Local 1) (num 7) ∷ stmt.Call r (num 5) None ∷ stmt.Say (local 1) ∷ [])) []
        ≡ what.Say (pos 7) ∷ what.End (pos 0) ∷ [] }
    ensures at_the_end { lines_of
        (script (routine r 0 [] ∷ []) 1
        (stmt.Set (Local 1) (num 7) ∷ stmt.Call r (num 5) (Some 1) ∷ stmt.Say (local 1) ∷ [])) []
        ≡ what.Say (pos 0) ∷ what.End (pos 0) ∷ [] }
    ensures in_a_loop { lines_of
        (script (routine r 0 (stmt.While (num 1) (stmt.If (num 1) (stmt.Return (num 3) ∷ []) None ∷ []) ∷ []) ∷ []) 1
        (stmt.Call r (num 5) (Some 1) ∷ stmt.Say (local 1) ∷ [])) []
        ≡ what.Say (pos 3) ∷ what.End (pos 0) ∷ [] }
    ensures out_of_a_try { lines_of
        (script (routine r 0 (stmt.Return (local 0) ∷ []) ∷ []) 1
        (stmt.TryFinally (stmt.Call r (num 5) (Some 1) ∷ []) (stmt.Say (local 1) ∷ []) ∷ [])) []
        ≡ what.Try 1 (at 7) ∷ what.Finally 1 0 ∷ what.Say (pos 5) ∷ what.Endfin 1 ∷ what.End (pos 0) ∷ [] }
    ensures outermost { lines_at (script [] 0 (stmt.Return (expr.Two op.Sub (local 0) (num 1)) ∷ [])) main (pos 4) []
        ≡ what.End (pos 3) ∷ [] }
    ensures kept_at_the_end { (quiet (setting_of 256 (script [] 0 []))
        (record {
          items = record { role = Calling (pos 4 ∷ []) None; inside = nothing 3 } ∷ [];
          under_way = None;
          value = pos 5;
          err = pos 1;
          scopes = 2;
          unwindings = 3;
        })).to
        ≡ record { items = []; under_way = None; value = pos 0; err = pos 1; scopes = 2; unwindings = 3 } }
    ensures of_a_once_routine { lines_of
        (script (item.Once o ∷ routine r 0 (stmt.Say (local 0) ∷ stmt.Return (num 5) ∷ []) ∷ []) 1
        (stmt.Dce (dce.Once o r) ∷ stmt.Say (local 1) ∷ [])) (Runs o r ∷ [])
        ≡ call word.Once (arg.Name o ∷ arg.Name r ∷ []) reply.Done ∷ what.Once 1 o ∷ what.Say (pos 0) ∷ what.Done 1
        ∷ what.Say (pos 0) ∷ what.End (pos 0) ∷ [] }
{}

/// Each call has locals of its own, which start at 0.
#[tactic(auto, unfolding(crate::specs::Computing::remainder_words))]
pub fn locals()
    ensures { lines_at
        (script [] 1
        (stmt.Say (local 1)
        ∷ stmt.Set (Local 1) (expr.Two op.Add (local 0) (num 10))
        ∷ stmt.If (local 0) (stmt.Call main (expr.Two op.Sub (local 0) (num 1)) None ∷ []) None
        ∷ stmt.Say (local 1)
        ∷ []))
        main (pos 2) []
        ≡ what.Say (pos 0) ∷ what.Say (pos 0) ∷ what.Say (pos 0) ∷ what.Say (pos 10) ∷ what.Say (pos 11)
        ∷ what.Say (pos 12)
        ∷ what.End (pos 0) ∷ [] }
{}

/// Frames that don't fit: a call, a try, and a once block, which is asked for two.
#[tactic(auto, unfolding(crate::specs::Computing::remainder_words))]
pub fn overflows()
    ensures sixteen_calls { lines_within 16
        (script [] 0 (stmt.Say (local 0) ∷ stmt.Call main (expr.Two op.Add (local 0) (num 1)) None ∷ [])) []
        ≡ what.Say (pos 0) ∷ what.Say (pos 1) ∷ what.Say (pos 2) ∷ what.Say (pos 3) ∷ what.Say (pos 4) ∷ what.Say (pos 5)
        ∷ what.Say (pos 6) ∷ what.Say (pos 7) ∷ what.Say (pos 8) ∷ what.Say (pos 9) ∷ what.Say (pos 10)
        ∷ what.Say (pos 11)
        ∷ what.Say (pos 12) ∷ what.Say (pos 13) ∷ what.Say (pos 14) ∷ what.Say (pos 15) ∷ what.Raise 1 stackovf_e
        ∷ what.Bottom 1 (negsuc 1) ∷ what.End (negsuc 1) ∷ [] }
    ensures call_in_a_try { lines_within 4
        (script [] 0 (stmt.TryCatch (stmt.Call main (num 0) None ∷ []) (catch (named 9) (say 1 ∷ []) ∷ []) ∷ [])) []
        ≡ what.Try 1 (at 3) ∷ what.Try 2 (at 3) ∷ what.Raise 1 stackovf_e ∷ what.Catch 2 1 (at 5) ∷ what.Say (pos 1)
        ∷ what.Endcatch 2 ∷ what.Endtry 1 ∷ what.End (pos 0) ∷ [] }
    ensures try_alone { lines_within 1 (script [] 0 (stmt.TryCatch (say 1 ∷ []) (catch_all [] ∷ []) ∷ [])) []
        ≡ what.Raise 1 stackovf_e ∷ what.Bottom 1 (negsuc 1) ∷ what.End (negsuc 1) ∷ [] }
    ensures try_in_a_try { lines_within 2
        (script [] 0 (stmt.TryCatch (stmt.TryFinally [] (say 1 ∷ []) ∷ []) (catch_all (say 2 ∷ []) ∷ []) ∷ [])) []
        ≡ what.Try 1 (at 3) ∷ what.Raise 1 stackovf_e ∷ what.Catch 1 1 (at 8) ∷ what.Say (pos 2) ∷ what.Endcatch 1
        ∷ what.End (pos 0) ∷ [] }
    ensures before_the_expression { lines_within 1 (script [] 0 (stmt.Call main (two op.Div 1 0) None ∷ [])) []
        ≡ what.Raise 1 stackovf_e ∷ what.Bottom 1 (negsuc 1) ∷ what.End (negsuc 1) ∷ [] }
    ensures shared_call { lines_within 1 (script (item.Shared x (pos 0) ∷ []) 0 (stmt.Call main (shared x) None ∷ [])) []
        ≡ what.Raise 1 stackovf_e ∷ what.Bottom 1 (negsuc 1) ∷ what.End (negsuc 1) ∷ [] }
    ensures once { lines_within 2 (script (item.Once o ∷ routine r 0 [] ∷ []) 0 (stmt.Dce (dce.Once o r)
        ∷ [])) (Runs o r ∷ [])
        ≡ what.Raise 1 stackovf_e ∷ what.Bottom 1 (negsuc 1) ∷ what.End (negsuc 1) ∷ [] }
    ensures once_fits { lines_within 3 (script (item.Once o ∷ routine r 0 [] ∷ []) 0 (stmt.Dce (dce.Once o r)
        ∷ [])) (Runs o r ∷ [])
        ≡ call word.Once (arg.Name o ∷ arg.Name r ∷ []) reply.Done ∷ what.Once 1 o ∷ what.Done 1 ∷ what.End (pos 0) ∷ [] }
    ensures once_in_interface_status { lines_within 3
        (script (item.Interface interface.Status ∷ item.Once o ∷ routine r 0 [] ∷ item.Key b ∷ []) 0
        (stmt.Dce (dce.Keycreate b None)
        ∷ stmt.TryCatch (stmt.Dce (dce.Once o r) ∷ []) (catch (named 9) (stmt.Say expr.Err ∷ []) ∷ [])
        ∷ []))
        (Replies reply.Ebusy ∷ Runs o r ∷ [])
        ≡ call word.Keycreate (arg.Name b ∷ arg.Word 0 ∷ []) reply.Ebusy ∷ what.Try 1 (at 9) ∷ what.Raise 1 stackovf_e
        ∷ what.Catch 1 1 (at 11) ∷ what.Say (pos 16) ∷ what.Endcatch 1 ∷ what.End (pos 0) ∷ [] }
{}
