//! The laws.

ghost use Rattle.std.specs.Prelude.{◌≡◌, ◌≤◌, ◌<◌, ℕ, true, length, Some, None, IfSome};
ghost use Rattle.thr_values.specs.declared.number.Tid.{Tid};
ghost use Rattle.thr_syntax.specs.declared.tree.Script.{Script};
ghost use Rattle.thr_text.specs.Reading.{Formed};
ghost use Rattle.thr_parts.specs.declared.thread.Thread.{Thread};
ghost use Rattle.thr_parts.specs.Tables.{names, get, has};
ghost use Rattle.thr_parts.specs.Rows.{most};
ghost use Rattle.thr_parts.specs.Waking.{mutex_with};
ghost use Rattle.thr_conds.specs.Agreement.{WaitsAgree};
ghost use Rattle.thr_pipes.specs.Agreement.{WritersAgree};
ghost use Rattle.thr_model.specs.Histories.{Execution, History};

/// In every history conditions and pipes agree with the rows on who waits. Whoever owes something stands in a row or runs, and so
/// does each thread in which something is left to do, and no other. Each thread that stands in a row or runs has a record and has not
/// ended. So there are few of them, and few waits on conditions and for times.
pub fn parts_agree_on_who_waits()
    ensures waits { (s : Script) (n : ℕ) (x : Execution) → History s n x → WaitsAgree x.state.conds x.state.rows }
    ensures writers { (s : Script) (n : ℕ) (x : Execution) → History s n x → WritersAgree x.state.pipes x.state.rows }
    ensures debts { (s : Script) (n : ℕ) (x : Execution) → History s n x → (t : ℕ) → has x.state.debts t ≡ true
        → has x.state.rows.seats t ≡ true }
    ensures records { (s : Script) (n : ℕ) (x : Execution) → History s n x → (t : ℕ) → has x.state.rows.seats t ≡ true
        → has x.state.threads.records t ≡ true }
    ensures remainders { (s : Script) (n : ℕ) (x : Execution) → History s n x → (t : ℕ)
        → has x.state.remainders t ≡ has x.state.rows.seats t }
    ensures living { (s : Script) (n : ℕ) (x : Execution) → History s n x → (t : ℕ) (th : Thread)
        → has x.state.rows.seats t ≡ true → get x.state.threads.records t ≡ Some th → th.ended ≡ None }
    ensures few { (s : Script) (n : ℕ) (x : Execution) → History s n x → length x.state.rows.seats ≤ most }
    ensures waits_few { (s : Script) (n : ℕ) (x : Execution) → History s n x → length x.state.conds.waits ≤ most }
{}

/// In every history of a script that keeps the rules the mutexes with which threads wait on conditions are names of the script, so
/// that they fit tables by names.
pub fn mutexes_of_waits_are_names()
    ensures { (s : Script) (n : ℕ) (x : Execution) → Formed s → History s n x → (t : Tid)
        → IfSome (mutex_with x.state.conds t) (λ m. m.0 < names) }
{}
