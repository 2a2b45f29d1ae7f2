//! Laws on counts and settings in histories.

ghost use Rattle.std.specs.Prelude.{◌≡◌, ℕ, ◌+◌, ◌*◌, ◌<◌, ◌≤◌, ℤ, true, length, Option, None, Some, IfSome};
ghost use Rattle.thr_values.specs.declared.event.Event.{Event};
ghost use Rattle.thr_values.specs.declared.number.NameId.{NameId};
ghost use Rattle.thr_values.specs.declared.number.Tid.{Tid};
ghost use Rattle.thr_syntax.specs.declared.tree.Script.{Script};
ghost use Rattle.thr_text.specs.Reading.{Formed};
ghost use Rattle.thr_remainder.specs.Remainders.{Remainder};
ghost use Rattle.thr_parts.specs.declared.thread.Thread.{Thread};
ghost use Rattle.thr_parts.specs.Tables.{get, has, IsCanonical};
ghost use Rattle.thr_parts.specs.Rows.{most, thread};
ghost use Rattle.thr_parts.specs.Dispatch.{running};
ghost use Rattle.thr_parts.specs.Mutexes.{owner};
ghost use Rattle.thr_model.specs.States.{State, Debt, setting_of};
ghost use Rattle.thr_model.specs.Turns.{Made, turn_by};
ghost use Rattle.thr_model.specs.Events.{made_by, clock_to};
ghost use Rattle.thr_model.specs.Histories.{Execution, History, limit_of, stop_at};

/// Each event makes a line. In every history the next thread number is at most two more than the lines; no lock is locked
/// more often than there are lines, and no thread has had more scopes or unwindings.
pub fn counts_rise_with_the_lines()
    ensures lines { (s : Script) (n : ℕ) (st : State) (e : Event) (made : Made) → made_by s n st e ≡ Some made → 0 < length made.lines }
    ensures numbers { (s : Script) (n : ℕ) (x : Execution) → History s n x → x.state.threads.next ≤ 2 + length x.entries }
    ensures depths { (s : Script) (n : ℕ) (x : Execution) → History s n x → (m : Option NameId) → IfSome (owner x.state.locks m) (λ h. h.depth ≤ length x.entries) }
    ensures scopes { (s : Script) (n : ℕ) (x : Execution) → History s n x → (t : ℕ) (r : Remainder) → get x.state.remainders t ≡ Some r → (r.scopes ≤ length x.entries) × (r.unwindings ≤ length x.entries) }
{}

/// Where no stop holds the lines are fewer than the script's limit, which is at most 1,000,000 in a script that keeps the
/// rules (docs/script.md, "Faults", F18).
pub fn lines_stay_below_the_limit()
    ensures limit { (s : Script) (st : State) (count : ℕ) → stop_at s st count ≡ None → count < limit_of s }
    ensures formed { (s : Script) (st : State) (count : ℕ) → Formed s → stop_at s st count ≡ None → count < 1000000 }
{}

/// In every history each stack has a size that can be set, and the setting of a thread that has not ended, and in which
/// something is left to do after an event, is that before the event.
pub fn stacks_keep_their_size()
    ensures frames { (s : Script) (n : ℕ) (x : Execution) → History s n x → (t : ℕ) → IfSome (get x.state.threads.records t) (λ th. (16 ≤ th.frames) × (th.frames ≤ 1024)) }
    ensures settings { (s : Script) (n : ℕ) (x : Execution) → History s n x → (e : Event) (made : Made) → made_by s n x.state e ≡ Some made → (t : ℕ) (th : Thread) → get x.state.threads.records t ≡ Some th → th.ended ≡ None
        → has made.state.remainders t ≡ true → setting_of s made.state (thread t) ≡ setting_of s x.state (thread t) }
{}

/// In every history threads run on processors that are there.
pub fn histories_run_on_processors_that_are_there()
    ensures { (s : Script) (n : ℕ) (x : Execution) → History s n x → (p : ℕ) (t : Tid) → running x.state.rows p ≡ Some t → p < n }
{}

/// A turn gives at most 2,048 arrivals, beside the one of a thread that gives its processor up, and so does a move of the
/// clock, where the seats are as few as threads can be. Where they are in every history, there are at most 2,049 arrivals
/// for each line, and the first.
pub fn arrivals_of_one_turn_are_few()
    ensures turn { (s : Script) (st : State) (t : Tid) (d : Option Debt) → IsCanonical st.rows.seats → length st.rows.seats ≤ most → (turn_by s st t d).state.rows.next_arrival ≤ st.rows.next_arrival + 2048 }
    ensures clock { (st : State) (now : ℤ) → length st.rows.seats ≤ most → (clock_to st now).state.rows.next_arrival ≤ st.rows.next_arrival + 2048 }
    ensures all { (s : Script) (n : ℕ) → ((x : Execution) → History s n x → length x.state.rows.seats ≤ most) → (x : Execution) → History s n x → x.state.rows.next_arrival ≤ 1 + 2049 * length x.entries }
{}
