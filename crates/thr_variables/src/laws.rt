//! Laws on shared variables in histories.

ghost use Rattle.std.specs.Prelude.{◌≡◌, ℕ};
ghost use Rattle.thr_syntax.specs.declared.tree.Script.{Script};
ghost use Rattle.thr_text.specs.Reading.{Formed};
ghost use Rattle.thr_parts.specs.Tables.{has};
ghost use Rattle.thr_model.specs.States.{declared_values};
ghost use Rattle.thr_model.specs.Histories.{Execution, History};

/// In every history of a script that keeps the rules the shared variables that have a value are the declared ones
/// (docs/machine.md, "Shared statements" and "Replies").
pub fn shared_variables_stay_declared()
    ensures { (s : Script) (n : ℕ) (x : Execution) → Formed s → History s n x → (name : ℕ) → has x.state.shared name ≡ has (declared_values s.items) name }
{}
