//! The laws.

ghost use Rattle.std.specs.Prelude.{◌<◌, ℕ, IfSome};
ghost use Rattle.thr_syntax.specs.declared.tree.Script.{Script};
ghost use Rattle.thr_text.specs.Reading.{Formed};
ghost use Rattle.thr_remainder.specs.Runs.{run_of, most_steps};
ghost use Rattle.thr_parts.specs.Tables.{names};
ghost use Rattle.thr_parts.specs.Rows.{thread};
ghost use Rattle.thr_parts.specs.Cancels.{mode_at};
ghost use Rattle.thr_model.specs.States.{remainder_of, setting_of};
ghost use Rattle.thr_model.specs.Histories.{Execution, History};
ghost use Rattle.thr_open_onces.specs.Blocks.{block_of};

/// In every history of a script that keeps the rules the once block that the quiet part of a turn comes to, to complete or to undo,
/// fits tables by names, whichever thread would take the turn: a call that began its routine named it.
pub fn open_once_blocks_are_names()
    ensures halts { (s : Script) (n : ℕ) (x : Execution) → Formed s → History s n x → (t : ℕ)
        → IfSome (block_of (run_of most_steps (setting_of s x.state (thread t)) (mode_at x.state.threads (thread t))
        (remainder_of x.state (thread t))).halt) (λ o. o.0 < names) }
{}
