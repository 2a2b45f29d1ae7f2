//! Replies: what they do to variables and to `err`, and which raise.

ghost use Rattle.std.specs.Prelude.{◌≡◌, pos, negsuc, ◌∷◌, [], codes, None, Some, true};
ghost use Rattle.thr_values.specs.Exceptions.{badparam_e, exhaust_e, existence_e, in_use_e, intdiv_e, intovf_e, pipe_e, use_error_e};
ghost use Rattle.thr_values.specs.declared.call.Arg.TheVariants as arg;
ghost use Rattle.thr_values.specs.declared.call.CallWord.TheVariants as word;
ghost use Rattle.thr_values.specs.declared.exception.Exc.TheVariants.{Address};
ghost use Rattle.thr_values.specs.declared.history.What.TheVariants as what;
ghost use Rattle.thr_values.specs.declared.reply.Effect.TheVariants as effect;
ghost use Rattle.thr_values.specs.declared.reply.Reply.TheVariants as reply;
ghost use Rattle.thr_syntax.specs.declared.dce.DceCall.TheVariants as dce;
ghost use Rattle.thr_syntax.specs.declared.expr.Expr.TheVariants as expr;
ghost use Rattle.thr_syntax.specs.declared.expr.Op.TheVariants as op;
ghost use Rattle.thr_syntax.specs.declared.expr.Var.TheVariants.{Local, Shared};
ghost use Rattle.thr_syntax.specs.declared.tree.Interface.TheVariants as interface;
ghost use Rattle.thr_syntax.specs.declared.tree.Item.TheVariants as item;
ghost use Rattle.thr_syntax.specs.declared.tree.Stmt.TheVariants as stmt;
ghost use Rattle.thr_remainder.specs.Alone.{Delivers, Replies, Returns};
ghost use Rattle.thr_remainder.specs.Samples.{a, c, call, catch_all, greatest, k, lines_of, local, m, named, num, p, said, say, script, shared, two, x};
ghost use Rattle.thr_remainder.specs.Starts.{at};

/// `err` after each reply, where no error raises.
#[tactic(auto, unfolding(crate::specs::Computing::remainder_words))]
pub fn error_numbers()
    ensures { said (lines_of
        (script (item.Interface interface.Status ∷ []) 0
        (stmt.While (num 1) (stmt.Dce dce.Yield ∷ stmt.Say expr.Err ∷ []) ∷ []))
        (Replies reply.Eperm ∷ Replies reply.Esrch ∷ Replies reply.Eagain ∷ Replies reply.Ebusy ∷ Replies reply.Einval
        ∷ Replies reply.Epipe ∷ Replies reply.Edeadlk ∷ Replies reply.Done ∷ Replies reply.Edeadlk
        ∷ Replies (reply.Value (pos 7)) ∷ Replies reply.Edeadlk ∷ Replies reply.Eof ∷ Replies reply.Edeadlk
        ∷ Replies (reply.Effect effect.Wakes) ∷ Replies reply.Blocks ∷ Returns reply.Epipe ∷ []))
        ≡ pos 1 ∷ pos 3 ∷ pos 11 ∷ pos 16 ∷ pos 22 ∷ pos 32 ∷ pos 35 ∷ pos 0 ∷ pos 35 ∷ pos 0 ∷ pos 35 ∷ pos 0
        ∷ pos 35 ∷ pos 0
        ∷ pos 32 ∷ [] }
{}

/// The exception of each error, where errors raise.
#[tactic(auto, unfolding(crate::specs::Computing::remainder_words))]
pub fn error_exceptions()
    ensures some { lines_of
        (script [] 0 (stmt.While (num 1) (stmt.TryCatch (stmt.Dce dce.Yield ∷ []) (catch_all (stmt.Say expr.Err ∷ [])
        ∷ []) ∷ []) ∷ []))
        (Replies reply.Eperm ∷ Replies reply.Esrch ∷ Replies reply.Eagain ∷ Replies reply.Blocks
        ∷ Returns reply.Ebusy ∷ [])
        ≡ what.Try 1 (at 4) ∷ call word.Yield [] reply.Eperm ∷ what.Raise 1 use_error_e ∷ what.Catch 1 1 (at 6)
        ∷ what.Say (pos 1) ∷ what.Endcatch 1
        ∷ what.Try 2 (at 4) ∷ call word.Yield [] reply.Esrch ∷ what.Raise 2 existence_e ∷ what.Catch 2 2 (at 6)
        ∷ what.Say (pos 3) ∷ what.Endcatch 2
        ∷ what.Try 3 (at 4) ∷ call word.Yield [] reply.Eagain ∷ what.Raise 3 exhaust_e ∷ what.Catch 3 3 (at 6)
        ∷ what.Say (pos 11) ∷ what.Endcatch 3
        ∷ what.Try 4 (at 4) ∷ call word.Yield [] reply.Blocks ∷ what.Ret reply.Ebusy ∷ what.Raise 4 in_use_e
        ∷ what.Catch 4 4 (at 6) ∷ what.Say (pos 16) ∷ what.Endcatch 4
        ∷ what.Try 5 (at 4) ∷ [] }
    ensures others { lines_of
        (script [] 0 (stmt.While (num 1) (stmt.TryCatch (stmt.Dce dce.Yield ∷ []) (catch_all [] ∷ []) ∷ []) ∷ []))
        (Replies reply.Einval ∷ Replies reply.Epipe ∷ Replies reply.Edeadlk ∷ Replies reply.Eof ∷ [])
        ≡ what.Try 1 (at 4) ∷ call word.Yield [] reply.Einval ∷ what.Raise 1 badparam_e ∷ what.Catch 1 1 (at 6)
        ∷ what.Endcatch 1
        ∷ what.Try 2 (at 4) ∷ call word.Yield [] reply.Epipe ∷ what.Raise 2 pipe_e ∷ what.Catch 2 2 (at 6)
        ∷ what.Endcatch 2
        ∷ what.Try 3 (at 4) ∷ call word.Yield [] reply.Edeadlk ∷ what.Raise 3 use_error_e ∷ what.Catch 3 3 (at 6)
        ∷ what.Endcatch 3
        ∷ what.Try 4 (at 4) ∷ call word.Yield [] reply.Eof ∷ what.Endtry 4
        ∷ what.Try 5 (at 4) ∷ [] }
{}

/// A timed wait whose time is past raises nothing, at the call or at its return; its other errors raise.
#[tactic(auto, unfolding(crate::specs::Computing::remainder_words))]
pub fn timed_waits()
    ensures at_the_call { said (lines_of
        (script (item.Mutex m ∷ item.Cond c ∷ []) 0 (stmt.Dce (dce.CondTimedwait c m (num 5)) ∷ stmt.Say expr.Err ∷ []))
        (Replies reply.Eagain ∷ []))
        ≡ pos 11 ∷ [] }
    ensures at_the_return { said (lines_of
        (script (item.Mutex m ∷ item.Cond c ∷ []) 0 (stmt.Dce (dce.CondTimedwait c m (num 5)) ∷ stmt.Say expr.Err ∷ []))
        (Replies reply.Blocks ∷ Returns reply.Eagain ∷ []))
        ≡ pos 11 ∷ [] }
    ensures not_the_owner { lines_of
        (script (item.Mutex m ∷ item.Cond c ∷ []) 0 (stmt.Dce (dce.CondTimedwait c m (num 5)) ∷ stmt.Say expr.Err ∷ []))
        (Replies reply.Eperm ∷ [])
        ≡ call word.CondTimedwait (arg.Name c ∷ arg.Name m ∷ arg.Num (pos 5) ∷ []) reply.Eperm ∷ what.Raise 1 use_error_e
        ∷ what.Bottom 1 (negsuc 1) ∷ what.End (negsuc 1) ∷ [] }
{}

/// Raises and deliveries leave `err`.
#[tactic(auto, unfolding(crate::specs::Computing::remainder_words))]
pub fn kept_error_numbers()
    ensures { said (lines_of
        (script (item.Interface interface.Status ∷ item.Exception a ∷ []) 0
        (stmt.Dce dce.Yield
        ∷ stmt.TryCatch (stmt.Raise a ∷ []) (catch_all (stmt.Say expr.Err ∷ []) ∷ [])
        ∷ stmt.TryCatch (stmt.Dce dce.Testcancel ∷ []) (catch_all (stmt.Say expr.Err ∷ []) ∷ [])
        ∷ stmt.TryCatch (stmt.Dce (dce.Detach (two op.Div 1 0)) ∷ []) (catch_all (stmt.Say expr.Err ∷ []) ∷ [])
        ∷ []))
        (Replies reply.Ebusy ∷ Delivers ∷ Replies reply.Done ∷ []))
        ≡ pos 16 ∷ pos 16 ∷ pos 16 ∷ [] }
{}

/// Which variables take the value of a reply. The script says the first and the second local, and then the shared variable.
#[tactic(auto, unfolding(crate::specs::Computing::remainder_words))]
pub fn stored_values()
    ensures local_variable { said (lines_of
        (script (item.Shared x (pos 0) ∷ []) 2
        (stmt.Dce (dce.Getprio expr.Me (Local 1)) ∷ stmt.Say (local 1) ∷ stmt.Say (local 2) ∷ stmt.Say (shared x) ∷ []))
        (Replies (reply.Value (pos 7)) ∷ []))
        ≡ pos 7 ∷ pos 0 ∷ pos 0 ∷ [] }
    ensures shared_variable { said (lines_of
        (script (item.Shared x (pos 0) ∷ []) 2
        (stmt.Dce (dce.Getprio expr.Me (Shared x)) ∷ stmt.Say (local 1) ∷ stmt.Say (local 2) ∷ stmt.Say (shared x) ∷ []))
        (Replies (reply.Value (pos 7)) ∷ []))
        ≡ pos 0 ∷ pos 0 ∷ pos 7 ∷ [] }
    ensures error_stores_nothing { said (lines_of
        (script (item.Interface interface.Status ∷ []) 1
        (stmt.Set (Local 1) (num 4) ∷ stmt.Dce (dce.Getprio expr.Me (Local 1)) ∷ stmt.Say (local 1) ∷ []))
        (Replies reply.Esrch ∷ []))
        ≡ pos 4 ∷ [] }
    ensures at_the_return { said (lines_of
        (script [] 1 (stmt.Dce (dce.Join (num 2) (Local 1)) ∷ stmt.Say (local 1) ∷ []))
        (Replies reply.Blocks ∷ Returns (reply.Value (negsuc 0)) ∷ []))
        ≡ negsuc 0 ∷ [] }
    ensures read { said (lines_of
        (script (item.Pipe p 4 ∷ item.Shared x (pos 0) ∷ []) 2
        (stmt.Dce (dce.Read p (Local 1) (Local 2)) ∷ stmt.Say (local 1) ∷ stmt.Say (local 2) ∷ stmt.Say (shared x) ∷ []))
        (Replies (reply.Value (pos 7)) ∷ []))
        ≡ pos 7 ∷ pos 1 ∷ pos 0 ∷ [] }
    ensures read_into_both_kinds { said (lines_of
        (script (item.Pipe p 4 ∷ item.Shared x (pos 0) ∷ []) 2
        (stmt.Dce (dce.Read p (Shared x) (Local 2)) ∷ stmt.Say (local 1) ∷ stmt.Say (local 2) ∷ stmt.Say (shared x) ∷ []))
        (Replies (reply.Value (pos 7)) ∷ []))
        ≡ pos 0 ∷ pos 1 ∷ pos 7 ∷ [] }
    ensures read_into_one_local { said (lines_of
        (script (item.Pipe p 4 ∷ []) 1 (stmt.Dce (dce.Read p (Local 1) (Local 1)) ∷ stmt.Say (local 1) ∷ []))
        (Replies (reply.Value (pos 7)) ∷ []))
        ≡ pos 1 ∷ [] }
    ensures read_into_one_shared { said (lines_of
        (script (item.Pipe p 4 ∷ item.Shared x (pos 0) ∷ []) 0 (stmt.Dce (dce.Read p (Shared x) (Shared x))
        ∷ stmt.Say (shared x) ∷ []))
        (Replies (reply.Value (pos 7)) ∷ []))
        ≡ pos 1 ∷ [] }
    ensures read_at_the_end { said (lines_of
        (script (item.Pipe p 4 ∷ []) 2
        (stmt.Set (Local 1) (num 4) ∷ stmt.Set (Local 2) (num 5) ∷ stmt.Dce (dce.Read p (Local 1) (Local 2))
        ∷ stmt.Say (local 1) ∷ stmt.Say (local 2) ∷ stmt.Say expr.Err ∷ []))
        (Replies reply.Blocks ∷ Returns reply.Eof ∷ []))
        ≡ pos 0 ∷ pos 0 ∷ pos 0 ∷ [] }
{}

/// Expressions of a call are valued from the left, before it asks; the first fault is its only line.
#[tactic(auto, unfolding(crate::specs::Computing::remainder_words))]
pub fn faults_of_calls()
    ensures first { lines_of
        (script [] 0 (stmt.Dce (dce.Setprio (expr.Two op.Add greatest (num 1)) (two op.Div 1 0) (Local 0))
        ∷ [])) (Replies reply.Done ∷ [])
        ≡ what.Raise 1 intovf_e ∷ what.Bottom 1 (negsuc 1) ∷ what.End (negsuc 1) ∷ [] }
    ensures second { lines_of
        (script [] 0 (stmt.Dce (dce.Setprio (num 1) (two op.Div 1 0) (Local 0)) ∷ [])) (Replies reply.Done ∷ [])
        ≡ what.Raise 1 intdiv_e ∷ what.Bottom 1 (negsuc 1) ∷ what.End (negsuc 1) ∷ [] }
    ensures values { lines_of
        (script (item.Shared x (pos 0) ∷ []) 0
        (stmt.Set (Shared x) (num 9) ∷ stmt.Dce (dce.Setprio expr.Me (expr.Two op.Add (shared x) (num 1)) (Local 0))
        ∷ []))
        (Replies (reply.Value (pos 16)) ∷ [])
        ≡ what.Set (at 4) (pos 9) ∷ call word.Setprio (arg.Num (pos 1) ∷ arg.Num (pos 10) ∷ []) (reply.Value (pos 16))
        ∷ what.End (pos 0) ∷ [] }
{}
