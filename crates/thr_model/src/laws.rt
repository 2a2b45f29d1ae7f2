//! Laws on histories.

ghost use Rattle.std.specs.Prelude.{◌≡◌, ℕ, ◌<◌, true, List, length, Option, None, Some};
ghost use Rattle.thr_values.specs.declared.event.Event.{Event};
ghost use Rattle.thr_values.specs.declared.event.Stop.{Stop};
ghost use Rattle.thr_syntax.specs.declared.tree.Script.{Script};
ghost use Rattle.thr_remainder.specs.Remainders.{Remainder};
ghost use Rattle.thr_remainder.specs.Scopes.{HasScopes};
ghost use Rattle.thr_values.specs.declared.number.NameId.{NameId};
ghost use Rattle.thr_parts.specs.Tables.{get};
ghost use Rattle.thr_values.specs.declared.number.Tid.{Tid};
ghost use Rattle.thr_parts.specs.declared.row.RowId.{RowId};
ghost use Rattle.thr_parts.specs.declared.row.Place.TheVariants.{Stands};
ghost use Rattle.thr_parts.specs.Rows.{seat_of, row_of, before, best};
ghost use Rattle.thr_parts.specs.Mutexes.{owner, waiters_row};
ghost use Rattle.thr_model.specs.Turns.{Made};
ghost use Rattle.thr_model.specs.Events.{made_by};
ghost use Rattle.thr_model.specs.Histories.{Execution, at_opening, History, StopsWith, Legal, stop_at};
ghost use Rattle.thr_model.specs.Canonical.{IsCanonicalState};
ghost use Rattle.thr_model.specs.Play.{play, alone};

/// What is played from the opening up to where a stop may stand is a legal history.
pub fn played_events_are_legal()
    ensures { (s : Script) (n : ℕ) (events : List Event) (x : Execution) (stop : Stop) → play s n events (at_opening s) ≡ Some x → StopsWith (stop_at s x.state (length x.entries)) stop → Legal s n x.entries stop }
{}

/// What one processor makes alone, up to where a stop may stand, is a legal history.
pub fn machines_alone_are_legal()
    ensures { (s : Script) (k : ℕ) (x : Execution) (stop : Stop) → x ≡ alone k s (at_opening s) → StopsWith (stop_at s x.state (length x.entries)) stop → Legal s 1 x.entries stop }
{}

/// The lines of a history fix its events: histories of a script with the same lines, on any numbers of processors, have the
/// same events, come to the same state, and have as many turns.
pub fn lines_fix_the_events()
    ensures { (s : Script) (n n' : ℕ) (x x' : Execution) → History s n x → History s n' x' → x.entries ≡ x'.entries → x ≡ x' }
{}

/// One processor leaves no choice: after a history of one processor at most one event is legal.
pub fn one_processor_has_one_event()
    ensures { (s : Script) (x : Execution) (e e' : Event) (a b : Made) → History s 1 x → made_by s 1 x.state e ≡ Some a → made_by s 1 x.state e' ≡ Some b → e ≡ e' }
{}

/// In every history the numbers rise in the table of seats and in each other table of the state.
pub fn states_stay_canonical()
    ensures { (s : Script) (n : ℕ) (x : Execution) → History s n x → IsCanonicalState x.state }
{}

/// In every history the numbers of each thread's open scopes were given, and they rise inward.
pub fn scopes_stay_in_order()
    ensures { (s : Script) (n : ℕ) (x : Execution) → History s n x → (t : ℕ) (r : Remainder) → get x.state.remainders t ≡ Some r → HasScopes r }
{}

/// In every history nobody waits for a mutex that nobody owns, and so for none that isn't made; nor for the global lock where
/// nobody owns it.
pub fn free_mutexes_have_no_waiters()
    ensures { (s : Script) (n : ℕ) (x : Execution) → History s n x → (m : Option NameId) → owner x.state.locks m ≡ None → best x.state.rows (waiters_row m) ≡ None }
{}

/// In every history each thread that stands in a row has an arrival below the next one, and no two threads that stand in rows
/// have the same.
pub fn arrivals_are_given_once()
    ensures below { (s : Script) (n : ℕ) (x : Execution) → History s n x → (t : Tid) (r : RowId) (rank arrival : ℕ) → seat_of x.state.rows t ≡ Some (record { rank = rank; place = Stands r arrival }) → arrival < x.state.rows.next_arrival }
    ensures apart { (s : Script) (n : ℕ) (x : Execution) → History s n x → (t u : Tid) (r q : RowId) (i j arrival : ℕ) → seat_of x.state.rows t ≡ Some (record { rank = i; place = Stands r arrival }) → seat_of x.state.rows u ≡ Some (record { rank = j; place = Stands q arrival }) → t ≡ u }
{}

/// In every history the best thread of a row is before every other thread of it.
pub fn best_is_before_every_other()
    ensures { (s : Script) (n : ℕ) (x : Execution) → History s n x → (r : RowId) (t u : Tid) → best x.state.rows r ≡ Some t → row_of x.state.rows u ≡ Some r → (u.0 ≡ t.0 → ⊥) → before x.state.rows t u ≡ true }
{}
