//! Laws on histories.

ghost use Rattle.std.specs.Prelude.{◌≡◌, ℕ, ℤ, List, Option, Some, true, false, IsTrue};
ghost use Rattle.thr_values.specs.declared.history.Entry.{Entry};
ghost use Rattle.thr_syntax.specs.declared.tree.Script.{Script};
ghost use Rattle.thr_laws.specs.CancelLaw.{delivers_outstanding, passes_no_point, delivers_at_once, delivers_when_woken, each_own_line, cancels_have_their_effects};
ghost use Rattle.thr_laws.specs.Known.{known};
ghost use Rattle.thr_laws.specs.CancelLaw.{is_waiting_point};
ghost use Rattle.thr_laws.specs.Lines.{is_some_line};
ghost use Rattle.thr_parts.specs.declared.thread.Thread.{Thread};
ghost use Rattle.thr_parts.specs.Cancels.{waits_at_point, mode_at};
ghost use Rattle.thr_parts.specs.Rows.{thread};
ghost use Rattle.thr_parts.specs.Tables.{get};
ghost use Rattle.thr_model.specs.States.{Delivery, setting_of, remainder_of};
ghost use Rattle.thr_model.specs.Histories.{Execution, History, Legal};
ghost use Rattle.thr_values.specs.declared.number.Tid.{Tid};
ghost use Rattle.thr_cancels.specs.Delivering.{IsAtOnce};
ghost use Rattle.std.specs.List.{list_all};
ghost use Rattle.thr_values.specs.declared.reply.Reply.{Reply};
ghost use Rattle.thr_values.specs.declared.reply.Reply.TheVariants as replies;
ghost use Rattle.thr_syntax.specs.declared.dce.DceCall.{DceCall};
ghost use Rattle.thr_remainder.specs.Acts.{Asks};
ghost use Rattle.thr_remainder.specs.Remainders.{Setting, Remainder, Spot, At, place_in, act_at};
ghost use Rattle.thr_remainder.specs.Calls.{shape_of, arguments};
ghost use Rattle.thr_remainder.specs.Replies.{replied};
ghost use Rattle.thr_remainder.specs.Runs.{is_deliverable, run_of, most_steps};
ghost use Rattle.thr_laws.specs.CancelLaw.{is_of_step};
ghost use Rattle.thr_model.specs.Turns.{begun_at};
ghost use Rattle.thr_cancels.specs.Telling.{IsRecorded};
ghost use Rattle.thr_values.specs.declared.event.Stop.{Stop};

/// In every history, and so in every legal one, a delivery stands only where a cancel of its thread is outstanding and general
/// cancelability is on.
pub fn deliveries_find_a_cancel_outstanding()
    ensures legal { (s : Script) (n : ℕ) (entries : List Entry) (stop : Stop) → Legal s n entries stop → (t : ℕ) → each_own_line delivers_outstanding t entries ≡ true }
    ensures all { (s : Script) (n : ℕ) (x : Execution) → History s n x → (t : ℕ) → each_own_line delivers_outstanding t x.entries ≡ true }
{}

/// In every history each cancel has the effect that holds: `ended` where the thread has its `end` line, `merged` where a cancel
/// is outstanding, `wakes` only where it waits at a point with general cancelability on.
pub fn cancels_have_the_effect_that_holds()
    ensures legal { (s : Script) (n : ℕ) (entries : List Entry) (stop : Stop) → Legal s n entries stop → (t : ℕ) → cancels_have_their_effects t entries ≡ true }
    ensures all { (s : Script) (n : ℕ) (x : Execution) → History s n x → (t : ℕ) → cancels_have_their_effects t x.entries ≡ true }
{}

/// In every history no call of a point stands where a cancel is outstanding and general cancelability is on.
pub fn no_point_is_passed_with_a_cancel()
    ensures legal { (s : Script) (n : ℕ) (entries : List Entry) (stop : Stop) → Legal s n entries stop → (t : ℕ) → each_own_line passes_no_point t entries ≡ true }
    ensures all { (s : Script) (n : ℕ) (x : Execution) → History s n x → (t : ℕ) → each_own_line passes_no_point t x.entries ≡ true }
{}

/// In every history, where a cancel is outstanding and both cancelabilities are on, the thread's next line, gifts aside, is its
/// delivery, a return, a carried line, the begin of a destructor or its end; after a return its own `raise` or `once` line may
/// follow.
pub fn cancels_are_delivered_at_once()
    ensures legal { (s : Script) (n : ℕ) (entries : List Entry) (stop : Stop) → Legal s n entries stop → (t : ℕ) → each_own_line (delivers_at_once s) t entries ≡ true }
    ensures all { (s : Script) (n : ℕ) (x : Execution) → History s n x → (t : ℕ) → each_own_line (delivers_at_once s) t x.entries ≡ true }
{}

/// In every history the next line of a thread that a cancel woke is its delivery, gifts aside.
pub fn woken_threads_deliver_first()
    ensures legal { (s : Script) (n : ℕ) (entries : List Entry) (stop : Stop) → Legal s n entries stop → (t : ℕ) → each_own_line delivers_when_woken t entries ≡ true }
    ensures all { (s : Script) (n : ℕ) (x : Execution) → History s n x → (t : ℕ) → each_own_line delivers_when_woken t x.entries ≡ true }
{}

/// After every history the lines tell of each thread that has a record what the record says; a thread that a cancel woke owes the
/// delivery; and the last line of a thread that waits at a point is a call of a point that waits.
pub fn what_lines_tell_of_cancels_is_kept()
    ensures records { (s : Script) (n : ℕ) (x : Execution) → History s n x → (t : ℕ) (th : Thread) → get x.state.threads.records t ≡ Some th → IsRecorded (known t x.entries) th }
    ensures woken { (s : Script) (n : ℕ) (x : Execution) → History s n x → (t : ℕ) → IsTrue (known t x.entries).woken → get x.state.debts t ≡ Some Delivery }
    ensures waiting { (s : Script) (n : ℕ) (x : Execution) → History s n x → (t : ℕ) → IsTrue (waits_at_point x.state.rows (thread t)) → IsTrue (is_some_line is_waiting_point (known t x.entries).last) }
{}

/// In every history, where a cancel of a thread is pending and both cancelabilities are on, the quiet part of its next turn that
/// makes no debt only carries an unwinding outward, and then the cancel is delivered, a once block is undone, or the thread makes
/// its end step.
pub fn cancels_come_before_the_next_step()
    ensures { (s : Script) (n : ℕ) (x : Execution) → History s n x → (t : Tid)
        → IsTrue (is_deliverable (mode_at x.state.threads t) false) → IsAtOnce (run_of most_steps (setting_of s x.state t) (mode_at x.state.threads t) (remainder_of x.state t)) }
{}

/// What a thread does in the step in which its call returns, with a reply or as the runner of its once block, is read as the call's
/// own step: it raises what the reply raises, or begins the routine of the call's once block.
pub fn returns_are_read_as_steps_of_their_calls()
    ensures replies { (g : Setting) (r : Remainder) (y : Reply) (h : Spot) (call : DceCall) (ns : List ℤ) → place_in r.items ≡ At h → act_at h ≡ Asks call
        → IsTrue (list_all (is_of_step g.script (shape_of call).word (arguments call ns) y) (replied g y r).lines) }
    ensures runs { (g : Setting) (r : Remainder) (h : Spot) (call : DceCall) (ns : List ℤ) → place_in r.items ≡ At h → act_at h ≡ Asks call
        → IsTrue (list_all (is_of_step g.script (shape_of call).word (arguments call ns) replies.Done) (begun_at g (place_in r.items) (replied g replies.Done r)).lines) }
{}
