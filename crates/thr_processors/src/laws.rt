//! Laws on the threads of processors.

ghost use Rattle.std.specs.Prelude.{◌≡◌, ◌<◌, ℕ, true, Some};
ghost use Rattle.thr_values.specs.declared.number.Tid.{Tid};
ghost use Rattle.thr_syntax.specs.declared.tree.Script.{Script};
ghost use Rattle.thr_parts.specs.declared.row.Seat.{Seat};
ghost use Rattle.thr_parts.specs.Rows.{seat_of};
ghost use Rattle.thr_parts.specs.Dispatch.{runs_on, running};
ghost use Rattle.thr_model.specs.Histories.{Execution, History};

/// In every history a processor has one thread at most: a thread whose seat is on a processor is the one that this processor
/// has, and the processor is there (docs/machine.md, "Dispatch and slices").
pub fn processors_have_one_thread()
    ensures { (s : Script) (n : ℕ) (x : Execution) → History s n x → (p : ℕ) (t : Tid) (seat : Seat)
        → seat_of x.state.rows t ≡ Some seat → runs_on p seat.place ≡ true → (running x.state.rows p ≡ Some t) × (p < n) }
{}
