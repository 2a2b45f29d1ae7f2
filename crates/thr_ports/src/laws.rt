//! Laws on which ported code can rely.

ghost use Rattle.std.specs.Prelude.{◌≡◌, ℕ, List, true};
ghost use Rattle.thr_values.specs.declared.event.Stop.{Stop};
ghost use Rattle.thr_values.specs.declared.history.Entry.{Entry};
ghost use Rattle.thr_syntax.specs.declared.tree.Script.{Script};
ghost use Rattle.thr_text.specs.Reading.{Formed};
ghost use Rattle.thr_laws.specs.Lines.{lines_of_thread};
ghost use Rattle.thr_laws.specs.CancelLaw.{CancelLaw};
ghost use Rattle.thr_laws.specs.Routed.{Routed};
ghost use Rattle.thr_model.specs.Histories.{Execution, History, Legal};
ghost use Rattle.thr_ports.specs.Broadcasts.{broadcasts_end_waits};
ghost use Rattle.thr_ports.specs.Finallys.{begin_inner_first};
ghost use Rattle.thr_ports.specs.Returning.{returns_leave_cancels};
ghost use Rattle.thr_ports.specs.Signals.{SignalLaw};

/// Where a call that waits ends by a return, no cancel of its thread since the call woke it, and one that was answered `pending` or
/// `merged` is outstanding still: also where a signal ended a wait on a condition, and the waiter was cancelled before it returned.
/// So it is in every legal history, and wherever lines meet the law on cancels.
pub fn returns_leave_cancels_pending()
    ensures legal { (s : Script) (n : ℕ) (entries : List Entry) (stop : Stop) → Legal s n entries stop
        → (t : ℕ) → returns_leave_cancels t entries ≡ true }
    ensures lines { (s : Script) (entries : List Entry) → CancelLaw s entries → (t : ℕ) → returns_leave_cancels t entries ≡ true }
{}

/// Signals, broadcasts, times and cancels end waits on conditions. The lines don't tell which waiter a signal takes, but there is a way
/// of taking, one waiter for each signal where anyone stands on its condition, by which each wait ends as it must: whom a signal or a
/// broadcast took out of a condition isn't woken by a cancel any more, which stays pending, and its wait returns `ok`.
pub fn signals_end_waits()
    ensures legal { (s : Script) (n : ℕ) (entries : List Entry) (stop : Stop) → Legal s n entries stop → SignalLaw entries }
    ensures all { (s : Script) (n : ℕ) (x : Execution) → History s n x → SignalLaw x.entries }
{}

/// A broadcast that replies `ok` ends each wait without a time that stands on its condition: from then on a cancel of the waiter is
/// answered `pending` or `merged`, and its wait returns `ok`. So it is in every legal history, and wherever lines meet the law on
/// signals; here the lines alone tell it.
pub fn broadcasts_end_waits_for_good()
    ensures legal { (s : Script) (n : ℕ) (entries : List Entry) (stop : Stop) → Legal s n entries stop
        → (t : ℕ) → broadcasts_end_waits t entries ≡ true }
    ensures lines { (entries : List Entry) → SignalLaw entries → (t : ℕ) → broadcasts_end_waits t entries ≡ true }
{}

/// The FINALLY bodies that are begun for an unwinding are of scopes that are open where it is made, inner before outer, and of each
/// once. So it is in every legal history of a script that keeps the rules, and wherever lines meet the law on routes.
pub fn finally_bodies_begin_inner_first()
    ensures legal { (s : Script) (n : ℕ) (entries : List Entry) (stop : Stop) → Formed s → Legal s n entries stop
        → (t : ℕ) → begin_inner_first (lines_of_thread t entries) ≡ true }
    ensures lines { (s : Script) (entries : List Entry) → Routed s entries → (t : ℕ) → begin_inner_first (lines_of_thread t entries) ≡ true }
{}
