//! Laws on the definitions.

ghost use Rattle.std.specs.Prelude.{◌≡◌, ◌↔◌, IsTrue, List, []};
ghost use Rattle.thr_values.specs.declared.event.Stop.{Stop};
ghost use Rattle.thr_values.specs.declared.history.Entry.{Entry};
ghost use Rattle.thr_values.specs.declared.history.What.{What};
ghost use Rattle.thr_syntax.specs.declared.tree.Script.{Script};
ghost use Rattle.thr_laws.specs.CallsOnce.{CallsOnce};
ghost use Rattle.thr_laws.specs.CancelLaw.{CancelLaw};
ghost use Rattle.thr_laws.specs.Owners.{OneOwner};
ghost use Rattle.thr_laws.specs.Passing.{failing, meets_calls_once, meets_cancel_law, meets_one_owner, meets_routed};
ghost use Rattle.thr_laws.specs.Plain.{IsReadAsPlain, is_plain};
ghost use Rattle.thr_laws.specs.Routed.{Routed};

/// A history meets a law exactly where it passes the tests of the threads and locks that its lines name.
pub fn histories_that_pass_meet_the_laws()
    ensures routed { (s : Script) → (entries : List Entry) → IsTrue (meets_routed s entries) ↔ Routed s entries }
    ensures owners { (entries : List Entry) → IsTrue (meets_one_owner entries) ↔ OneOwner entries }
    ensures cancels { (s : Script) → (entries : List Entry) → IsTrue (meets_cancel_law s entries) ↔ CancelLaw s entries }
    ensures calls { (s : Script) → (entries : List Entry) → (stop : Stop) → IsTrue (meets_calls_once s entries stop)
        ↔ CallsOnce s entries stop }
    ensures all { (s : Script) → (entries : List Entry) → (stop : Stop) → failing s entries stop
        ≡ [] ↔ (Routed s entries × OneOwner entries × CancelLaw s entries × CallsOnce s entries stop) }
{}

/// A plain line leaves what the laws know of scopes, unwindings, locks and cancels as it is.
pub fn plain_lines_are_read_as_lines_of_their_thread()
    ensures { (w : What) → IsTrue (is_plain w) → IsReadAsPlain w }
{}
