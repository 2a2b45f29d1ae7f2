//! Laws on histories.

ghost use Rattle.std.specs.Prelude.{◌≡◌, ℕ, List, Some};
ghost use Rattle.thr_values.specs.declared.event.Stop.{Stop};
ghost use Rattle.thr_values.specs.declared.history.Entry.{Entry};
ghost use Rattle.thr_syntax.specs.declared.tree.Script.{Script};
ghost use Rattle.thr_remainder.specs.Remainders.{Remainder};
ghost use Rattle.thr_parts.specs.Tables.{get};
ghost use Rattle.thr_laws.specs.CallsOnce.{CallsOnce, waits};
ghost use Rattle.thr_laws.specs.Known.{known};
ghost use Rattle.thr_model.specs.Histories.{Execution, History, Legal};
ghost use Rattle.thr_answers.specs.Standing.{StandsIn};
ghost use Rattle.thr_answers.specs.Statuses.{is_waiting, status_of};

/// In every history what is left in each thread stands at its lines of the script.
pub fn what_is_left_stands_at_its_lines()
    ensures { (s : Script) (n : ℕ) (x : Execution) → History s n x → (t : ℕ) (r : Remainder) → get x.state.remainders t ≡ Some r → StandsIn s r }
{}

/// In every history the lines tell which threads wait or owe something: those whose last line, gifts aside, is a call that
/// waits.
pub fn lines_tell_who_waits()
    ensures { (s : Script) (n : ℕ) (x : Execution) → History s n x → (t : ℕ) → waits (known t x.entries) ≡ is_waiting (status_of x.state t) }
{}

/// In every legal history each call that waits is answered once.
pub fn each_call_is_answered_once()
    ensures { (s : Script) (n : ℕ) (entries : List Entry) (stop : Stop) → Legal s n entries stop → CallsOnce s entries stop }
{}
