//! Laws on what begins.

ghost use Rattle.std.specs.Prelude.{◌≡◌, ℕ, true, Some, IfSome};
ghost use Rattle.thr_values.specs.declared.number.Tid.{Tid};
ghost use Rattle.thr_syntax.specs.declared.tree.Script.{Script};
ghost use Rattle.thr_text.specs.Reading.{Formed};
ghost use Rattle.thr_trees.specs.Routines.{IsRoutine};
ghost use Rattle.thr_remainder.specs.Remainders.{has_room};
ghost use Rattle.thr_parts.specs.Keys.{next_destructor};
ghost use Rattle.thr_model.specs.States.{Running, debt_of, setting_of, remainder_of};
ghost use Rattle.thr_model.specs.Histories.{Execution, History};

/// In every history of a script that keeps the rules the destructor that an ending thread would call next is a routine of the
/// script (docs/machine.md, "Keys").
pub fn what_begins_is_a_routine()
    ensures { (s : Script) (n : ℕ) (x : Execution) → Formed s → History s n x → (t : Tid) → IfSome (next_destructor x.state.onces t).call (λ c. IsRoutine s c.1) }
{}

/// In every history a thread that owes the running of a once block, for which it waited, has the two free frames that it asked for
/// when it made its call (docs/machine.md, "Frames" and "Once blocks").
pub fn once_blocks_that_wait_have_room()
    ensures { (s : Script) (n : ℕ) (x : Execution) → History s n x → (t : Tid) → debt_of x.state t ≡ Some Running → has_room (setting_of s x.state t) (remainder_of x.state t) 2 ≡ true }
{}
