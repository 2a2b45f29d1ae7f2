//! The laws.

ghost use Rattle.std.specs.Prelude.{◌≡◌, ℕ, List, Some, true, IsTrue};
ghost use Rattle.thr_values.specs.declared.number.NameId.{NameId};
ghost use Rattle.thr_values.specs.declared.event.Stop.{Stop};
ghost use Rattle.thr_values.specs.declared.history.Entry.{Entry};
ghost use Rattle.thr_syntax.specs.declared.tree.Script.{Script};
ghost use Rattle.thr_text.specs.Reading.{Formed};
ghost use Rattle.thr_laws.specs.Owners.{Lock, OneOwner};
ghost use Rattle.thr_laws.specs.Lines.{is_some_line};
ghost use Rattle.thr_laws.specs.Known.{known};
ghost use Rattle.thr_laws.specs.Routed.{Routed};
ghost use Rattle.thr_laws.specs.CancelLaw.{CancelLaw, is_wait_with, waits_end_with_the_mutex};
ghost use Rattle.thr_model.specs.Histories.{Execution, History, Legal};
ghost use Rattle.thr_reacquired.specs.Waiters.{Has};
ghost use Rattle.thr_reacquired.specs.Handling.{handlers_find_the_mutex};

/// Cancels are delivered when they must and may be, in every legal history: the law of cancels with all its parts.
pub fn cancels_are_delivered_when_they_must_and_may_be()
    ensures { (s : Script) (n : ℕ) (entries : List Entry) (stop : Stop) → Legal s n entries stop → CancelLaw s entries }
{}

/// After every history a thread whose last line, gifts aside, is a wait on a condition with a mutex is on record as waiting with it,
/// or stands in the mutex's row, or owns the mutex.
pub fn waiters_wait_for_their_mutex_or_own_it()
    ensures { (s : Script) (n : ℕ) (x : Execution) → History s n x
        → (t : ℕ) (m : NameId) → IsTrue (is_some_line (is_wait_with (Some m)) (known t x.entries).last)
        → Has t m x.state.conds x.state.locks x.state.rows }
{}

/// In every history, and so in every legal one, a thread owns the mutex of its wait on a condition where the wait ends, by a
/// return or a delivery.
pub fn waits_end_with_their_mutex()
    ensures legal { (s : Script) (n : ℕ) (entries : List Entry) (stop : Stop) → Legal s n entries stop
        → (t : ℕ) (lock : Lock) → waits_end_with_the_mutex t lock entries ≡ true }
    ensures all { (s : Script) (n : ℕ) (x : Execution) → History s n x
        → (t : ℕ) (lock : Lock) → waits_end_with_the_mutex t lock x.entries ≡ true }
{}

/// Where a delivery ends a wait on a condition, the thread's next line, gifts and `pause` aside, carries the delivery's unwinding to
/// the first entry of its route, a handler where one takes it, and the thread owns the mutex of the wait there. So it is in every
/// legal history of a script that keeps the rules, and wherever lines meet the laws on owners, on cancels and on routes.
pub fn handlers_of_cancelled_waits_find_the_mutex()
    ensures legal { (s : Script) (n : ℕ) (entries : List Entry) (stop : Stop) → Formed s → Legal s n entries stop
        → (t : ℕ) (lock : Lock) → handlers_find_the_mutex t lock entries ≡ true }
    ensures lines { (s : Script) (entries : List Entry) → OneOwner entries → CancelLaw s entries → Routed s entries
        → (t : ℕ) (lock : Lock) → handlers_find_the_mutex t lock entries ≡ true }
{}
