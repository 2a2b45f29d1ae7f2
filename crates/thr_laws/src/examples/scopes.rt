//! Open scopes, and the clauses of tries.

ghost use Rattle.std.specs.Prelude.{◌≡◌, ◌∷◌, [], ℕ, pos, negsuc};
ghost use Rattle.thr_values.specs.Exceptions.{cancel_e, pipe_e};
ghost use Rattle.thr_values.specs.declared.history.What.TheVariants as what;
ghost use Rattle.thr_remainder.specs.Samples.{a, b, k, named, o};
ghost use Rattle.thr_laws.specs.Handlers.{Catch, CatchAll, Finally, clauses_at};
ghost use Rattle.thr_laws.specs.Samples.{at, cancel_raised_again, cancelled_wait, finally_raises, nested};
ghost use Rattle.thr_laws.specs.Scopes.{Open, InBody, InCatch, InDestructor, InFinally, InOnce, opened};

/// What each line does to the open scopes.
#[tactic(auto, unfolding(crate::specs::Computing::law_words))]
pub fn open_scopes()
    ensures none { opened [] ≡ [] }
    ensures opens { opened (what.Try 1 (at 3) ∷ what.Once 2 o ∷ what.Destroy 3 k (pos 7) ∷ [])
        ≡ record { scope = 3; stage = InDestructor } ∷ record { scope = 2; stage = InOnce }
        ∷ record { scope = 1; stage = InBody 3 } ∷ [] }
    ensures try_ends { opened (what.Try 1 (at 3) ∷ what.Try 2 (at 4) ∷ what.Endtry 2 ∷ [])
        ≡ record { scope = 1; stage = InBody 3 } ∷ [] }
    ensures catch_ends { opened (what.Try 1 (at 3) ∷ what.Raise 1 pipe_e ∷ what.Catch 1 1 (at 5) ∷ what.Endcatch 1 ∷ [])
        ≡ [] }
    ensures finally_ends { opened (what.Try 1 (at 3) ∷ what.Try 2 (at 4) ∷ what.Finally 2 0 ∷ what.Endfin 2 ∷ [])
        ≡ record { scope = 1; stage = InBody 3 } ∷ [] }
    ensures once_ends { opened (what.Once 1 o ∷ what.Done 1 ∷ []) ≡ [] }
    ensures destructor_ends { opened (what.Destroy 1 k (pos 7) ∷ what.Enddes 1 ∷ []) ≡ [] }
    ensures caught { opened (what.Try 1 (at 3) ∷ what.Try 2 (at 4) ∷ what.Try 3 (at 5) ∷ what.Catch 2 1 (at 9) ∷ [])
        ≡ record { scope = 2; stage = InCatch } ∷ record { scope = 1; stage = InBody 3 } ∷ [] }
    ensures finally { opened (what.Try 1 (at 3) ∷ what.Try 2 (at 4) ∷ what.Try 3 (at 5) ∷ what.Finally 2 7 ∷ [])
        ≡ record { scope = 2; stage = InFinally 7 } ∷ record { scope = 1; stage = InBody 3 } ∷ [] }
    ensures undone { opened (what.Try 1 (at 3) ∷ what.Once 2 o ∷ what.Try 3 (at 5) ∷ what.Undone 2 1 ∷ [])
        ≡ record { scope = 1; stage = InBody 3 } ∷ [] }
    ensures lost { opened (what.Try 1 (at 3) ∷ what.Destroy 2 k (pos 7) ∷ what.Try 3 (at 5) ∷ what.Lost 2 1 ∷ [])
        ≡ record { scope = 1; stage = InBody 3 } ∷ [] }
    ensures bottom { opened (what.Try 1 (at 3) ∷ what.Try 2 (at 4) ∷ what.Bottom 1 (negsuc 0) ∷ []) ≡ [] }
    ensures others { opened (what.Try 1 (at 3) ∷ what.Say (pos 7) ∷ what.Raise 1 cancel_e ∷ what.Pause ∷ [])
        ≡ record { scope = 1; stage = InBody 3 } ∷ [] }
{}

/// The clauses of a try, from its line of the script.
#[tactic(auto, unfolding(crate::specs::Computing::law_words))]
pub fn clauses()
    ensures outer { clauses_at cancel_raised_again 3 ≡ Catch 10 (named 0) ∷ [] }
    ensures inner { clauses_at cancel_raised_again 4 ≡ CatchAll 7 ∷ [] }
    ensures finally { clauses_at cancelled_wait 7 ≡ Finally ∷ [] }
    ensures around_finally { clauses_at finally_raises 5 ≡ Catch 11 b ∷ [] }
    ensures around_blocks { clauses_at nested 6 ≡ Catch 23 a ∷ Catch 29 b ∷ CatchAll 30 ∷ [] }
    ensures in_a_block { clauses_at nested 8 ≡ Catch 10 a ∷ CatchAll 12 ∷ [] }
    ensures in_a_body { clauses_at nested 18 ≡ Finally ∷ [] }
    ensures in_a_clause { clauses_at nested 25 ≡ CatchAll 26 ∷ [] }
    ensures below_another { clauses_at nested 32 ≡ Finally ∷ [] }
{}
