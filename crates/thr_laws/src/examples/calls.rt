//! Calls that wait and are answered once, and some that aren't.

ghost use Rattle.std.specs.Prelude.{◌≡◌, ◌∷◌, ◌++◌, [], pos, negsuc, Some};
ghost use Rattle.thr_values.specs.declared.call.CallWord.TheVariants as word;
ghost use Rattle.thr_values.specs.declared.event.Stop.TheVariants as stops;
ghost use Rattle.thr_values.specs.declared.history.What.TheVariants as what;
ghost use Rattle.thr_values.specs.declared.reply.Reply.TheVariants as reply;
ghost use Rattle.thr_remainder.specs.Samples.{c, k, m, p, x};
ghost use Rattle.thr_laws.specs.Passing.{AnswersACall, FinishesAnswered, IsAnswered, IsWokenFromIt, NamesItsStatement, failing};
ghost use Rattle.thr_laws.specs.Samples.{
  alone,
  at,
  by,
  calls,
  delivered_from,
  delivered_with_mutex,
  first,
  number,
  of,
  pending,
  points,
  runs,
  signalled_wait,
  three_lock,
  two_wait,
  up_to_the_cancel,
  value,
};

/// A return or a delivery for each call that waits. A delivery has the line of the call, whatever the values of its expressions.
#[tactic(auto, unfolding(crate::specs::Computing::law_words))]
pub fn answered_calls()
    ensures returns { failing three_lock
        (two_wait ++ (calls 1 word.MutexUnlock (of m ∷ []) reply.Done ∷ by 2 (what.Gift (Some m)) ∷ by 2 (what.Ret reply.Done)
        ∷ [])) stops.Memory
        ≡ [] }
    ensures delay { failing points (delivered_from word.DelayNp (number 5 ∷ []) 10) stops.Memory ≡ [] }
    ensures other_value { failing points (delivered_from word.DelayNp (number 6 ∷ []) 10) stops.Memory ≡ [] }
    ensures join { failing points (delivered_from word.Join (number 1 ∷ []) 11) stops.Memory ≡ [] }
    ensures wait { failing points (delivered_with_mutex word.CondWait (of c ∷ of m ∷ []) 12) stops.Memory ≡ [] }
    ensures timed_wait { failing points (delivered_with_mutex word.CondTimedwait (of c ∷ of m ∷ number 7 ∷ []) 13) stops.Memory
        ≡ [] }
    ensures read { failing points (delivered_from word.Read (of p ∷ []) 15) stops.Memory ≡ [] }
    ensures write { failing points (delivered_from word.Write (of p ∷ number 3 ∷ []) 16) stops.Memory ≡ [] }
    ensures waits_for_ever { failing three_lock
        (calls 1 word.MutexInit (of m ∷ first ∷ []) reply.Done ∷ calls 1 word.MutexLock (of m ∷ []) reply.Done
        ∷ calls 1 word.MutexLock (of m ∷ []) reply.Blocks ∷ []) (stops.Deadlock 1 (record { 0 = 1 }))
        ≡ [] }
{}

/// Lines that come too early, and returns of nothing.
#[tactic(auto, unfolding(crate::specs::Computing::law_words))]
pub fn unanswered_calls()
    ensures goes_on { failing points (calls 1 word.DelayNp (number 5 ∷ []) reply.Blocks ∷ by 1 (what.Say (pos 1)) ∷ [])
        stops.Memory
        ≡ IsAnswered ∷ [] }
    ensures waits_again { failing points (calls 1 word.DelayNp (number 5 ∷ []) reply.Blocks
        ∷ calls 1 word.Read (of p ∷ []) reply.Blocks ∷ by 1 (what.Ret (value 3)) ∷ []) stops.Memory
        ≡ IsAnswered ∷ [] }
    ensures ends { failing points (calls 1 word.DelayNp (number 5 ∷ []) reply.Blocks ∷ by 1 (what.End (pos 0)) ∷ [])
        stops.Finished
        ≡ IsAnswered ∷ [] }
    ensures returns_of_nothing { failing points (by 1 (what.Say (pos 1)) ∷ by 1 (what.Ret reply.Done) ∷ []) stops.Memory
        ≡ AnswersACall ∷ [] }
    ensures returns_first { failing points (by 1 (what.Ret reply.Done) ∷ []) stops.Memory ≡ AnswersACall ∷ [] }
    ensures returns_twice { failing points (calls 1 word.DelayNp (number 5 ∷ []) reply.Blocks ∷ by 1 (what.Ret reply.Done)
        ∷ by 1 (what.Ret reply.Done) ∷ []) stops.Memory
        ≡ AnswersACall ∷ [] }
    ensures returns_of_an_answered_call { failing points (calls 1 word.Yield [] reply.Done ∷ by 1 (what.Ret reply.Done) ∷ [])
        stops.Memory
        ≡ AnswersACall ∷ [] }
    ensures another_waits { failing points (calls 2 word.DelayNp (number 5 ∷ []) reply.Blocks ∷ by 1 (what.Ret reply.Done)
        ∷ []) stops.Memory
        ≡ AnswersACall ∷ [] }
    ensures finishes { failing points (calls 1 word.DelayNp (number 5 ∷ []) reply.Blocks ∷ []) stops.Finished
        ≡ FinishesAnswered ∷ [] }
    ensures finishes_with_a_gift { failing three_lock
        (calls 1 word.MutexLock (of m ∷ []) reply.Blocks ∷ by 1 (what.Gift (Some m)) ∷ []) stops.Finished
        ≡ FinishesAnswered ∷ [] }
{}

/// Deliveries at lines of other statements.
#[tactic(auto, unfolding(crate::specs::Computing::law_words))]
pub fn wrong_statements()
    ensures other_word { failing points (delivered_from word.DelayNp (number 1 ∷ []) 11) stops.Memory ≡ NamesItsStatement ∷ [] }
    ensures other_condition { failing points (delivered_with_mutex word.CondWait (of c ∷ of m ∷ []) 14) stops.Memory
        ≡ NamesItsStatement ∷ [] }
    ensures other_pipe { failing points (delivered_from word.Read (of p ∷ []) 17) stops.Memory ≡ NamesItsStatement ∷ [] }
    ensures without_a_time { failing points (delivered_with_mutex word.CondWait (of c ∷ of m ∷ []) 13) stops.Memory
        ≡ NamesItsStatement ∷ [] }
    ensures too_many_arguments { failing points (delivered_from word.Read (of p ∷ number 3 ∷ []) 15) stops.Memory
        ≡ NamesItsStatement ∷ [] }
    ensures too_few_arguments { failing points (delivered_from word.Write (of p ∷ []) 16) stops.Memory
        ≡ NamesItsStatement ∷ [] }
    ensures no_call { failing points (delivered_from word.DelayNp (number 5 ∷ []) 18) stops.Memory ≡ NamesItsStatement ∷ [] }
    ensures declaration { failing points (delivered_from word.Read (of p ∷ []) 5) stops.Memory ≡ NamesItsStatement ∷ [] }
    ensures no_line { failing points (delivered_from word.DelayNp (number 5 ∷ []) 0) stops.Memory ≡ NamesItsStatement ∷ [] }
    ensures past_the_end { failing points (delivered_from word.DelayNp (number 5 ∷ []) 20) stops.Memory
        ≡ NamesItsStatement ∷ [] }
{}

/// Deliveries out of a wait from which no cancel woke the thread.
#[tactic(auto, unfolding(crate::specs::Computing::law_words))]
pub fn deliveries_unwoken()
    ensures signalled { failing signalled_wait
        (up_to_the_cancel ++ (calls 1 word.CondSignal (of c ∷ []) reply.Done ∷ calls 1 word.Cancel (number 2 ∷ []) pending
        ∷ calls 1 word.MutexUnlock (of m ∷ []) reply.Done ∷ by 2 (what.Gift (Some m)) ∷ by 2 (what.Deliver 1 (at 8))
        ∷ by 2 (what.Finally 1 1) ∷ [])) stops.Memory
        ≡ IsWokenFromIt ∷ [] }
    ensures at_a_mutex { failing three_lock
        (calls 2 word.MutexLock (of m ∷ []) reply.Blocks ∷ calls 1 word.Cancel (number 2 ∷ []) pending
        ∷ by 2 (what.Deliver 1 (at 4)) ∷ by 2 (what.Bottom 1 (negsuc 0)) ∷ []) stops.Memory
        ≡ IsWokenFromIt ∷ [] }
{}
