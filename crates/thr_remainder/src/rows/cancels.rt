//! Where a cancel can be delivered.

ghost use Rattle.std.specs.Prelude.{◌≡◌, true, false};
ghost use Rattle.thr_remainder.specs.Runs.{is_deliverable};
ghost use Rattle.thr_remainder.specs.Samples.{mode};

/// A cancel can be delivered at a point, and anywhere with both cancelabilities on.
#[tactic(auto, unfolding(crate::specs::Computing::remainder_words))]
pub fn deliverable_cancels()
    ensures at_point { is_deliverable (mode true true false) true ≡ true }
    ensures elsewhere { is_deliverable (mode true true false) false ≡ false }
    ensures asynchronous { is_deliverable (mode true true true) false ≡ true }
    ensures general_off { is_deliverable (mode true false true) true ≡ false }
    ensures no_cancel { is_deliverable (mode false true true) true ≡ false }
{}
