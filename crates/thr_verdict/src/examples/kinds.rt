//! Names and their kinds.

ghost use Rattle.std.specs.Prelude.{◌≡◌, ◌∷◌, [], map};
ghost use Rattle.thr_text.specs.declared.object.Object.TheVariants as object;
ghost use Rattle.thr_verdict.specs.Samples.{kinds_of};

/// The built-in names, a declared name of each kind, and a number that no name has.
#[tactic(auto, unfolding(crate::specs::Computing::verdict_words))]
pub fn kinds_of_names()
    ensures built_in { map kinds_of (0 ∷ 9 ∷ []) ≡ (object.Exception ∷ []) ∷ (object.Exception ∷ []) ∷ [] }
    ensures declared { map kinds_of (10 ∷ 11 ∷ 12 ∷ 13 ∷ 14 ∷ 15 ∷ 16 ∷ 17 ∷ 18 ∷ 19 ∷ 20 ∷ [])
        ≡ (object.Shared ∷ [])
        ∷ (object.Exception ∷ [])
        ∷ (object.Exception ∷ [])
        ∷ (object.Mutex ∷ [])
        ∷ (object.Mutexattr ∷ [])
        ∷ (object.Cond ∷ [])
        ∷ (object.Attr ∷ [])
        ∷ (object.Key ∷ [])
        ∷ (object.Once ∷ [])
        ∷ (object.Pipe ∷ [])
        ∷ (object.Routine ∷ [])
        ∷ [] }
    ensures undeclared { kinds_of 21 ≡ [] }
{}
