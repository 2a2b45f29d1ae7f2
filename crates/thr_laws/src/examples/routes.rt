//! Unwindings that take their routes, and some that don't.

ghost use Rattle.std.specs.Prelude.{◌≡◌, ◌∷◌, ◌++◌, [], pos, negsuc, Some};
ghost use Rattle.thr_values.specs.Exceptions.{cancel_e, pipe_e};
ghost use Rattle.thr_values.specs.declared.call.CallWord.TheVariants as word;
ghost use Rattle.thr_values.specs.declared.event.Stop.TheVariants as stops;
ghost use Rattle.thr_values.specs.declared.exception.Exc.TheVariants.{Address, Status};
ghost use Rattle.thr_values.specs.declared.history.What.TheVariants as what;
ghost use Rattle.thr_values.specs.declared.reply.Reply.TheVariants as reply;
ghost use Rattle.thr_remainder.specs.Samples.{a, b, call, j, k, m, o};
ghost use Rattle.thr_remainder.specs.declared.unwinding.Cause.TheVariants.{Exit, Raised};
ghost use Rattle.thr_laws.specs.Passing.{AlongItsRoute, MadeBeforeCarried, Numbered, StraightOn, WholeRoute, failing};
ghost use Rattle.thr_laws.specs.Routes.{Catches, Leaves, Loses, RunsFinally, Undoes, route};
ghost use Rattle.thr_laws.specs.Samples.{
  alone,
  at,
  by,
  calls,
  cancel_raised_again,
  cancelled_wait,
  destructor_raises,
  exits,
  finally_catches,
  finally_raises,
  match_by_number,
  matched,
  nested,
  number,
  of,
  once_unwound,
  pending,
  runs,
  up_to_the_cancel,
  wakes,
};
ghost use Rattle.thr_laws.specs.Scopes.{InBody, InCatch, InDestructor, InFinally, InOnce};

/// The entries of routes.
#[tactic(auto, unfolding(crate::specs::Computing::law_words))]
pub fn routes()
    ensures no_scope { route nested [] (Raised (Address a)) ≡ Leaves (negsuc 1) ∷ [] }
    ensures no_scope_for_cancel { route nested [] (Raised cancel_e) ≡ Leaves (negsuc 0) ∷ [] }
    ensures no_scope_for_exit { route nested [] (Exit (pos 8)) ≡ Leaves (pos 8) ∷ [] }
    ensures first_match { route nested (record { scope = 2; stage = InBody 8 } ∷ record { scope = 1; stage = InBody 6 } ∷ [])
        (Raised (Address a))
        ≡ Catches 2 10 ∷ [] }
    ensures later_match { route nested (record { scope = 1; stage = InBody 6 } ∷ []) (Raised (Address b)) ≡ Catches 1 29 ∷ [] }
    ensures all_match { route nested (record { scope = 1; stage = InBody 6 } ∷ []) (Raised pipe_e) ≡ Catches 1 30 ∷ [] }
    ensures no_match { route cancel_raised_again (record { scope = 1; stage = InBody 3 } ∷ []) (Raised pipe_e)
        ≡ Leaves (negsuc 1) ∷ [] }
    ensures equal_number { route match_by_number (record { scope = 1; stage = InBody 12 } ∷ []) (Raised (Status (pos 5)))
        ≡ Catches 1 18 ∷ [] }
    ensures other_number { route match_by_number (record { scope = 1; stage = InBody 12 } ∷ []) (Raised (Status (pos 6)))
        ≡ Leaves (negsuc 1) ∷ [] }
    ensures exit_is_not_caught { route nested (record { scope = 1; stage = InBody 6 } ∷ []) (Exit (pos 8))
        ≡ Leaves (pos 8) ∷ [] }
    ensures finally { route cancelled_wait (record { scope = 1; stage = InBody 7 } ∷ []) (Raised cancel_e)
        ≡ RunsFinally 1 ∷ Leaves (negsuc 0) ∷ [] }
    ensures finally_for_exit { route cancelled_wait (record { scope = 1; stage = InBody 7 } ∷ []) (Exit (pos 8))
        ≡ RunsFinally 1 ∷ Leaves (pos 8) ∷ [] }
    ensures in_catch { route nested (record { scope = 2; stage = InCatch } ∷ record { scope = 1; stage = InBody 6 } ∷ [])
        (Raised (Address a))
        ≡ Catches 1 23 ∷ [] }
    ensures in_finally { route finally_raises
        (record { scope = 2; stage = InFinally 1 } ∷ record { scope = 1; stage = InBody 5 } ∷ []) (Raised (Address b))
        ≡ Catches 1 11 ∷ [] }
    ensures once { route nested (record { scope = 2; stage = InOnce } ∷ record { scope = 1; stage = InBody 6 } ∷ [])
        (Raised pipe_e)
        ≡ Undoes 2 ∷ Catches 1 30 ∷ [] }
    ensures destructor { route nested (record { scope = 2; stage = InDestructor } ∷ record { scope = 1; stage = InBody 6 } ∷ [])
        (Raised pipe_e)
        ≡ Loses 2 ∷ [] }
{}

/// Histories with each kind of unwinding and entry, which meet all laws.
#[tactic(auto, unfolding(crate::specs::Computing::law_words))]
pub fn kept_routes()
    ensures matched { failing match_by_number matched stops.Finished ≡ [] }
    ensures raised_again { failing cancel_raised_again
        (alone
        (what.Try 1 (at 3) ∷ what.Try 2 (at 4) ∷ call word.Cancel (number 1 ∷ []) pending ∷ what.Deliver 1 (at 6)
        ∷ what.Catch 2 1 (at 7) ∷ what.Reraise 2 cancel_e ∷ what.Catch 1 2 (at 10) ∷ what.Say (pos 3) ∷ what.Endcatch 1
        ∷ what.End (pos 0) ∷ [])) stops.Finished
        ≡ [] }
    ensures replaced { failing finally_raises
        (alone
        (what.Try 1 (at 5) ∷ what.Try 2 (at 6) ∷ what.Raise 1 (Address a) ∷ what.Finally 2 1 ∷ what.Raise 2 (Address b)
        ∷ what.Catch 1 2 (at 11) ∷ what.Say (pos 1) ∷ what.Endcatch 1 ∷ what.End (pos 0) ∷ [])) stops.Finished
        ≡ [] }
    ensures replaced_and_out { failing finally_catches
        (alone
        (what.Try 1 (at 5) ∷ what.Raise 1 (Address a) ∷ what.Finally 1 1 ∷ what.Raise 2 pipe_e ∷ what.Bottom 2 (negsuc 1)
        ∷ what.End (negsuc 1) ∷ [])) stops.Finished
        ≡ [] }
    ensures caught_inside { failing finally_catches
        (alone
        (what.Try 1 (at 5) ∷ what.Raise 1 (Address a) ∷ what.Finally 1 1 ∷ what.Try 2 (at 8) ∷ what.Raise 2 (Address b)
        ∷ what.Catch 2 2 (at 10) ∷ what.Endcatch 2 ∷ what.Endfin 1 ∷ what.Bottom 1 (negsuc 1) ∷ what.End (negsuc 1) ∷ []))
        stops.Finished
        ≡ [] }
    ensures exit { failing exits
        (alone
        (what.Try 1 (at 3) ∷ what.Try 2 (at 4) ∷ what.Exit 1 (pos 8) ∷ what.Finally 1 1 ∷ what.Say (pos 1) ∷ what.Endfin 1
        ∷ what.Bottom 1 (pos 8) ∷ what.End (pos 8) ∷ [])) stops.Finished
        ≡ [] }
    ensures lost { failing destructor_raises
        (alone
        (what.Destroy 1 k (pos 4) ∷ what.Raise 1 (Address a) ∷ what.Lost 1 1 ∷ what.Destroy 2 j (pos 5) ∷ what.Say (pos 5)
        ∷ what.Enddes 2 ∷ what.End (pos 9) ∷ [])) stops.Finished
        ≡ [] }
    ensures undone { failing once_unwound
        (by 2 (what.Once 1 o) ∷ calls 2 word.DelayNp (number 10 ∷ []) reply.Blocks ∷ calls 1 word.Cancel (number 2 ∷ []) wakes
        ∷ by 2 (what.Deliver 1 (at 4)) ∷ by 2 (what.Undone 1 1) ∷ runs 0 4 ∷ by 2 (what.Bottom 1 (negsuc 0))
        ∷ by 2 (what.End (negsuc 0)) ∷ []) stops.Memory
        ≡ [] }
    ensures cut_off { failing match_by_number
        (alone (what.Try 1 (at 12) ∷ what.Try 2 (at 13) ∷ what.Raise 1 (Status (pos 5)) ∷ what.Finally 2 1 ∷ [])) stops.Limit
        ≡ [] }
    ensures with_pauses { failing finally_catches
        (alone
        (what.Try 1 (at 5) ∷ what.Pause ∷ what.Raise 1 (Address a) ∷ what.Pause ∷ what.Finally 1 1 ∷ what.Pause ∷ what.Endfin 1
        ∷ what.Pause ∷ what.Bottom 1 (negsuc 1) ∷ what.End (negsuc 1) ∷ [])) stops.Finished
        ≡ [] }
{}

/// Numbers of unwindings that don't count up.
#[tactic(auto, unfolding(crate::specs::Computing::law_words))]
pub fn wrong_numbers()
    ensures skipped { failing cancel_raised_again
        (alone
        (what.Try 1 (at 3) ∷ what.Try 2 (at 4) ∷ call word.Cancel (number 1 ∷ []) pending ∷ what.Deliver 1 (at 6)
        ∷ what.Catch 2 1 (at 7) ∷ what.Reraise 3 cancel_e ∷ what.Catch 1 3 (at 10) ∷ what.Say (pos 3) ∷ what.Endcatch 1
        ∷ what.End (pos 0) ∷ [])) stops.Finished
        ≡ Numbered ∷ [] }
    ensures from_two { failing finally_catches (alone (what.Raise 2 (Address a) ∷ what.Bottom 2 (negsuc 1)
        ∷ what.End (negsuc 1) ∷ [])) stops.Finished
        ≡ Numbered ∷ [] }
    ensures never_made { failing finally_catches (alone (what.Try 1 (at 5) ∷ what.Finally 1 1 ∷ what.Endfin 1
        ∷ what.End (pos 0) ∷ [])) stops.Finished
        ≡ MadeBeforeCarried ∷ [] }
    ensures made_later { failing finally_catches (alone (what.Bottom 1 (negsuc 1) ∷ what.Raise 1 (Address a) ∷ []))
        stops.Memory
        ≡ MadeBeforeCarried ∷ [] }
{}

/// Lines that leave the route. Since the first entry has to come next, a wrong first entry is refused twice.
#[tactic(auto, unfolding(crate::specs::Computing::law_words))]
pub fn left_routes()
    ensures after_its_catch { failing finally_raises
        (alone
        (what.Try 1 (at 5) ∷ what.Try 2 (at 6) ∷ what.Raise 1 (Address b) ∷ what.Finally 2 1 ∷ what.Endfin 2
        ∷ what.Catch 1 1 (at 11) ∷ what.Endcatch 1 ∷ what.Bottom 1 (negsuc 1) ∷ [])) stops.Memory
        ≡ AlongItsRoute ∷ [] }
    ensures finally_twice { failing finally_catches
        (alone (what.Try 1 (at 5) ∷ what.Raise 1 (Address a) ∷ what.Finally 1 1 ∷ what.Finally 1 1 ∷ [])) stops.Memory
        ≡ AlongItsRoute ∷ [] }
    ensures outermost_match { failing cancel_raised_again
        (alone
        (what.Try 1 (at 3) ∷ what.Try 2 (at 4) ∷ call word.Cancel (number 1 ∷ []) pending ∷ what.Deliver 1 (at 6)
        ∷ what.Catch 1 1 (at 10) ∷ what.Say (pos 3) ∷ what.Endcatch 1 ∷ [])) stops.Memory
        ≡ AlongItsRoute ∷ StraightOn ∷ [] }
    ensures finally_skipped_by_a_cancel { failing cancelled_wait
        (up_to_the_cancel ++ (calls 1 word.Cancel (number 2 ∷ []) wakes ∷ calls 1 word.MutexUnlock (of m ∷ []) reply.Done
        ∷ by 2 (what.Gift (Some m)) ∷ by 2 (what.Deliver 1 (at 8)) ∷ by 2 (what.Bottom 1 (negsuc 0)) ∷ [])) stops.Memory
        ≡ AlongItsRoute ∷ StraightOn ∷ [] }
    ensures finally_skipped_to_the_end { failing cancelled_wait
        (up_to_the_cancel ++ (calls 1 word.Cancel (number 2 ∷ []) wakes ∷ calls 1 word.MutexUnlock (of m ∷ []) reply.Done
        ∷ by 2 (what.Gift (Some m)) ∷ by 2 (what.Deliver 1 (at 8)) ∷ by 2 (what.Bottom 1 (negsuc 0))
        ∷ by 2 (what.End (negsuc 0)) ∷ [])) stops.Memory
        ≡ AlongItsRoute ∷ WholeRoute ∷ StraightOn ∷ [] }
    ensures finally_runs_again { failing finally_raises
        (alone
        (what.Try 1 (at 5) ∷ what.Try 2 (at 6) ∷ what.Raise 1 (Address a) ∷ what.Finally 2 1 ∷ what.Raise 2 (Address b)
        ∷ what.Finally 2 2 ∷ [])) stops.Memory
        ≡ AlongItsRoute ∷ StraightOn ∷ [] }
    ensures wrong_line { failing match_by_number
        (alone (what.Try 1 (at 12) ∷ what.Raise 1 (Status (pos 5)) ∷ what.Catch 1 1 (at 17) ∷ [])) stops.Memory
        ≡ AlongItsRoute ∷ StraightOn ∷ [] }
    ensures exit_caught { failing exits
        (alone (what.Try 1 (at 3) ∷ what.Try 2 (at 4) ∷ what.Exit 1 (pos 8) ∷ what.Catch 2 1 (at 6) ∷ [])) stops.Memory
        ≡ AlongItsRoute ∷ StraightOn ∷ [] }
    ensures past_a_destructor { failing destructor_raises
        (alone (what.Destroy 1 k (pos 4) ∷ what.Raise 1 (Address a) ∷ what.Bottom 1 (negsuc 1) ∷ [])) stops.Memory
        ≡ AlongItsRoute ∷ StraightOn ∷ [] }
    ensures wrong_value { failing finally_catches (alone (what.Raise 1 (Address a) ∷ what.Bottom 1 (negsuc 0) ∷ []))
        stops.Memory
        ≡ AlongItsRoute ∷ StraightOn ∷ [] }
{}

/// Routes of threads that ended, which were neither taken whole nor replaced.
#[tactic(auto, unfolding(crate::specs::Computing::law_words))]
pub fn cut_routes()
    ensures after_finally { failing finally_catches
        (alone (what.Try 1 (at 5) ∷ what.Raise 1 (Address a) ∷ what.Finally 1 1 ∷ what.End (negsuc 1) ∷ [])) stops.Finished
        ≡ WholeRoute ∷ [] }
    ensures caught_inside { failing finally_catches
        (alone
        (what.Try 1 (at 5) ∷ what.Raise 1 (Address a) ∷ what.Finally 1 1 ∷ what.Try 2 (at 8) ∷ what.Raise 2 (Address b)
        ∷ what.Catch 2 2 (at 10) ∷ what.Endcatch 2 ∷ what.End (negsuc 1) ∷ [])) stops.Finished
        ≡ WholeRoute ∷ [] }
    ensures body_had_ended { failing finally_raises
        (alone
        (what.Try 1 (at 5) ∷ what.Try 2 (at 6) ∷ what.Raise 1 (Address a) ∷ what.Finally 2 1 ∷ what.Endfin 2
        ∷ what.Raise 2 (Address b) ∷ what.Catch 1 2 (at 11) ∷ what.Endcatch 1 ∷ what.End (pos 0) ∷ [])) stops.Finished
        ≡ WholeRoute ∷ StraightOn ∷ [] }
    ensures body_never_began { failing finally_raises
        (alone (what.Try 1 (at 5) ∷ what.Raise 1 (Address a) ∷ what.End (negsuc 1) ∷ [])) stops.Finished
        ≡ WholeRoute ∷ StraightOn ∷ [] }
{}

/// Lines that stand between two entries of a route.
#[tactic(auto, unfolding(crate::specs::Computing::law_words))]
pub fn lines_between()
    ensures after_the_making { failing match_by_number
        (alone
        (what.Try 1 (at 12) ∷ what.Raise 1 (Status (pos 5)) ∷ what.Say (pos 7) ∷ what.Catch 1 1 (at 18) ∷ what.Endcatch 1
        ∷ what.End (pos 0) ∷ [])) stops.Finished
        ≡ StraightOn ∷ [] }
    ensures after_a_finally_body { failing finally_catches
        (alone
        (what.Try 1 (at 5) ∷ what.Raise 1 (Address a) ∷ what.Finally 1 1 ∷ what.Endfin 1 ∷ what.Say (pos 7)
        ∷ what.Bottom 1 (negsuc 1) ∷ what.End (negsuc 1) ∷ [])) stops.Finished
        ≡ StraightOn ∷ [] }
    ensures after_undone { failing finally_catches
        (alone
        (what.Once 1 o ∷ what.Raise 1 (Address a) ∷ what.Undone 1 1 ∷ what.Say (pos 7) ∷ what.Bottom 1 (negsuc 1)
        ∷ what.End (negsuc 1) ∷ [])) stops.Finished
        ≡ StraightOn ∷ [] }
    ensures normal_finally_body { failing finally_catches
        (alone (what.Try 1 (at 5) ∷ what.Finally 1 0 ∷ what.Endfin 1 ∷ what.Say (pos 7) ∷ what.End (pos 0) ∷ []))
        stops.Finished
        ≡ [] }
{}
