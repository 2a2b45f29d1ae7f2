//! The laws.

ghost use Rattle.std.specs.Prelude.{◌≡◌, ◌≤◌, ℕ, ℤ, length, Option, Some};
ghost use Rattle.thr_values.specs.declared.event.Event.{Event};
ghost use Rattle.thr_values.specs.declared.event.Event.TheVariants as event;
ghost use Rattle.thr_values.specs.declared.number.NameId.{NameId};
ghost use Rattle.thr_values.specs.declared.number.Tid.{Tid};
ghost use Rattle.thr_syntax.specs.declared.tree.Script.{Script};
ghost use Rattle.thr_parts.specs.declared.wait.Wait.TheVariants.{Cond};
ghost use Rattle.thr_parts.specs.Conditions.{wait_of};
ghost use Rattle.thr_model.specs.Turns.{Made};
ghost use Rattle.thr_model.specs.Events.{made_by};
ghost use Rattle.thr_model.specs.Histories.{Execution, History};

/// In every history all threads that wait on a condition wait there with one mutex: a wait with another is refused.
pub fn waiters_of_a_condition_have_one_mutex()
    ensures { (s : Script) (n : ℕ) (x : Execution) → History s n x → (t u : Tid) (c m k : NameId) (until until' : Option ℤ)
        → wait_of x.state.conds t ≡ Some (Cond c m until) → wait_of x.state.conds u ≡ Some (Cond c k until') → m ≡ k }
{}

/// In every history an event writes few lines. A turn has those of at most 64 quiet steps, and a call at its end gives a mutex to
/// one thread at most, a broadcast too. A move of the clock has its own line, and at most one gift for each thread that stands in
/// a row.
pub fn events_write_few_lines()
    ensures turn { (s : Script) (n : ℕ) (x : Execution) → History s n x → (p : ℕ) (made : Made)
        → made_by s n x.state (event.Turn p) ≡ Some made → length made.lines ≤ 136 }
    ensures event { (s : Script) (n : ℕ) (x : Execution) → History s n x → (e : Event) (made : Made)
        → made_by s n x.state e ≡ Some made → length made.lines ≤ 1100 }
{}
