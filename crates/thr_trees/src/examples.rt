//! Statements and lines, with what the definitions say of them. Each is a function that does nothing and whose contract is the
//! example.

ghost use Rattle.std.specs.Prelude.{◌≡◌, ◌∷◌, [], None, Some, true, false};
ghost use Rattle.thr_syntax.specs.declared.dce.DceCall.TheVariants as dce;
ghost use Rattle.thr_syntax.specs.declared.expr.ExcRef.TheVariants.{Named, This};
ghost use Rattle.thr_syntax.specs.declared.expr.Expr.TheVariants as expr;
ghost use Rattle.thr_syntax.specs.declared.expr.Op.TheVariants as op;
ghost use Rattle.thr_syntax.specs.declared.expr.Var.TheVariants.{Local, Shared};
ghost use Rattle.thr_syntax.specs.declared.form.Form.TheVariants as form;
ghost use Rattle.thr_syntax.specs.declared.tree.Stmt.TheVariants as stmt;
ghost use Rattle.thr_text.specs.declared.object.Object.TheVariants as object;
ghost use Rattle.thr_trees.specs.Caught.{body_caught};
ghost use Rattle.thr_trees.specs.Names.{exceptions_in, named_in, variables_in};
ghost use Rattle.thr_trees.specs.Samples.{catching, catching_all, named, this};

/// Where `reraise` stands (docs/script.md, "Blocks").
#[tactic(auto, unfolding(crate::specs::Computing::example_words))]
pub fn places_of_reraise()
    ensures alone { body_caught (stmt.Reraise ∷ []) false ≡ false }
    ensures clause { body_caught (stmt.TryCatch [] (catching (stmt.Reraise ∷ []) ∷ []) ∷ []) false ≡ true }
    ensures clause_of_all { body_caught (stmt.TryCatch [] (catching_all (stmt.Reraise ∷ []) ∷ []) ∷ []) false ≡ true }
    ensures body { body_caught (stmt.TryCatch (stmt.Reraise ∷ []) (catching_all [] ∷ []) ∷ []) false ≡ false }
    ensures behind { body_caught (stmt.TryCatch [] (catching_all [] ∷ []) ∷ stmt.Reraise ∷ []) false ≡ false }
    ensures finally_body { body_caught (stmt.TryFinally [] (stmt.Reraise ∷ []) ∷ []) false ≡ false }
    ensures finally_in_clause { body_caught (stmt.TryCatch [] (catching_all (stmt.TryFinally [] (stmt.Reraise ∷ []) ∷ []) ∷ []) ∷ []) false
        ≡ true }
    ensures body_in_clause { body_caught
        (stmt.TryCatch [] (catching_all (stmt.TryCatch (stmt.Reraise ∷ []) (catching [] ∷ []) ∷ []) ∷ []) ∷ []) false ≡ true }
    ensures other { body_caught (stmt.If expr.Me [] (Some (stmt.Reraise ∷ [])) ∷ []) false ≡ false }
{}

/// Where `this` stands (docs/script.md, "Blocks").
#[tactic(auto, unfolding(crate::specs::Computing::example_words))]
pub fn places_of_this()
    ensures say { body_caught (stmt.Say this ∷ []) false ≡ false }
    ensures set { body_caught (stmt.Set (Local 0) (expr.Not this) ∷ []) false ≡ false }
    ensures condition { body_caught (stmt.If (expr.Two op.Add expr.Err this) [] None ∷ []) false ≡ false }
    ensures repeats { body_caught (stmt.While this [] ∷ []) false ≡ false }
    ensures argument { body_caught (stmt.Call (named 10) this None ∷ []) false ≡ false }
    ensures returned { body_caught (stmt.Return this ∷ []) false ≡ false }
    ensures exit { body_caught (stmt.Exit this ∷ []) false ≡ false }
    ensures call { body_caught (stmt.Dce (dce.Setprio expr.Me this (Local 0)) ∷ []) false ≡ false }
    ensures matched { body_caught (stmt.Say (expr.Matches (Named (named 0)) This) ∷ []) false ≡ false }
    ensures another { body_caught (stmt.Say (expr.Matches (Named (named 0)) (Named (named 1))) ∷ []) false ≡ true }
    ensures caught { body_caught (stmt.TryCatch [] (catching (stmt.While expr.Me (stmt.Say this ∷ []) ∷ []) ∷ []) ∷ []) false ≡ true }
{}

/// The names, the variables and the exceptions of lines (docs/script.md, "Lines" and "Calls").
#[tactic(auto, unfolding(crate::specs::Computing::example_words))]
pub fn names_of_lines()
    ensures called { named_in (form.Call (named 10) expr.Me (Some 1)) ≡ (named 10, object.Routine) ∷ [] }
    ensures receiver { variables_in (form.Call (named 10) (expr.Var (Shared (named 11))) (Some 1)) ≡ Shared (named 11) ∷ Local 1 ∷ [] }
    ensures created { named_in (form.Dce (dce.Create (Local 0) (Some (named 12)) (named 10) expr.Me))
        ≡ (named 12, object.Attr) ∷ (named 10, object.Routine) ∷ [] }
    ensures plainly { named_in (form.Dce (dce.Create (Local 0) None (named 10) expr.Me)) ≡ (named 10, object.Routine) ∷ [] }
    ensures waited { named_in (form.Dce (dce.CondTimedwait (named 13) (named 14) expr.Me))
        ≡ (named 13, object.Cond) ∷ (named 14, object.Mutex) ∷ [] }
    ensures read { variables_in (form.Dce (dce.Read (named 15) (Local 0) (Shared (named 11)))) ≡ Local 0 ∷ Shared (named 11) ∷ [] }
    ensures changed { variables_in (form.Dce (dce.Setprio (expr.Var (Local 0)) (expr.Var (Local 1)) (Local 2)))
        ≡ Local 0 ∷ Local 1 ∷ Local 2 ∷ [] }
    ensures matched { exceptions_in (form.If (expr.Two op.And (expr.Matches (Named (named 0)) This) (expr.GetStatus (Named (named 3)))))
        ≡ Named (named 0) ∷ This ∷ Named (named 3) ∷ [] }
{}
