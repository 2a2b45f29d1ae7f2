//! The law of laws.

ghost use Rattle.std.specs.Prelude.{List, ℕ};
ghost use Rattle.thr_values.specs.declared.history.Entry.{Entry};
ghost use Rattle.thr_values.specs.declared.event.Stop.{Stop};
ghost use Rattle.thr_syntax.specs.declared.tree.Script.{Script};
ghost use Rattle.thr_text.specs.Reading.{Formed};
ghost use Rattle.thr_model.specs.Histories.{Legal};
ghost use Rattle.thr_lawful.specs.Laws.{MeetsLaws};

use thr_answers::laws::each_call_is_answered_once;
use thr_owners::laws::no_mutex_has_two_owners;
use thr_reacquired::laws::cancels_are_delivered_when_they_must_and_may_be;
use thr_routed::laws::each_unwinding_takes_its_route;

/// Each legal history of a script that keeps the rules meets the laws (docs/laws.md).
pub fn legal_histories_meet_the_laws()
    ensures { (s : Script) (n : ℕ) (entries : List Entry) (stop : Stop) → Formed s → Legal s n entries stop → MeetsLaws s entries stop }
{
    each_unwinding_takes_its_route();
    no_mutex_has_two_owners();
    cancels_are_delivered_when_they_must_and_may_be();
    each_call_is_answered_once();
}
