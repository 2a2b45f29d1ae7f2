//! Cancels that are delivered when they must and may be, and some that aren't.

ghost use Rattle.std.specs.Prelude.{◌≡◌, ◌∷◌, ◌++◌, [], pos, negsuc, Some};
ghost use Rattle.thr_values.specs.Exceptions.{pipe_e, exhaust_e, intovf_e};
ghost use Rattle.thr_values.specs.declared.call.CallWord.TheVariants as word;
ghost use Rattle.thr_values.specs.declared.event.Stop.TheVariants as stops;
ghost use Rattle.thr_values.specs.declared.history.What.TheVariants as what;
ghost use Rattle.thr_values.specs.declared.reply.Reply.TheVariants as reply;
ghost use Rattle.thr_remainder.specs.Samples.{c, j, k, m, o, p};
ghost use Rattle.thr_laws.specs.Passing.{
  DeliversAtOnce,
  DeliversOutstanding,
  DeliversWhenWoken,
  EndsWithItsMutex,
  HasItsEffect,
  PassesNoPoint,
  failing,
};
ghost use Rattle.thr_laws.specs.Samples.{
  alone,
  asynchronous,
  at,
  by,
  calls,
  cancelled_twice,
  cancelled_wait,
  clock,
  ended,
  first,
  joined_and_cancelled,
  merged,
  merging_cancels,
  number,
  of,
  once_unwound,
  pending,
  points,
  quiet_errors,
  runs,
  second,
  signalled_wait,
  three_lock,
  up_to_the_cancel,
  value,
  wait_cancelled,
  wakes,
};

/// Whole histories with cancels, which meet all laws.
#[tactic(auto, unfolding(crate::specs::Computing::law_words))]
pub fn kept_cancels()
    ensures out_of_a_wait { failing cancelled_wait (up_to_the_cancel ++ wait_cancelled) stops.Finished ≡ [] }
    ensures after_a_signal { failing signalled_wait
        (up_to_the_cancel ++ (calls 1 word.CondSignal (of c ∷ []) reply.Done ∷ calls 1 word.Cancel (number 2 ∷ []) pending
        ∷ calls 1 word.MutexUnlock (of m ∷ []) reply.Done ∷ by 2 (what.Gift (Some m))
        ∷ calls 1 word.Join (number 2 ∷ []) reply.Blocks ∷ runs 0 2 ∷ by 2 (what.Ret reply.Done) ∷ by 2 (what.Deliver 1 (at 9))
        ∷ by 2 (what.Finally 1 1) ∷ calls 2 word.MutexUnlock (of m ∷ []) reply.Done ∷ by 2 (what.Endfin 1)
        ∷ by 2 (what.Bottom 1 (negsuc 0)) ∷ by 2 (what.End (negsuc 0)) ∷ runs 0 1
        ∷ by 1 (what.Ret (reply.Value (negsuc 0))) ∷ by 1 (what.Say (negsuc 0)) ∷ by 1 (what.End (pos 0)) ∷ []))
        stops.Finished
        ≡ [] }
    ensures merging { failing merging_cancels
        (cancelled_twice merged ++ (calls 2 word.Testcancel [] reply.Done ∷ by 2 (what.Endcatch 1) ∷ by 2 (what.End (pos 0))
        ∷ joined_and_cancelled ended)) stops.Finished
        ≡ [] }
    ensures asynchronous { failing asynchronous
        (calls 1 word.Setcancel (second ∷ []) (value 1) ∷ calls 1 word.Setasynccancel (first ∷ []) (value 0)
        ∷ calls 1 word.Cancel (number 1 ∷ []) pending ∷ calls 1 word.Testcancel [] reply.Done
        ∷ calls 1 word.Setcancel (first ∷ []) (value 0) ∷ by 1 (what.Deliver 1 (at 9)) ∷ by 1 (what.Bottom 1 (negsuc 0))
        ∷ by 1 (what.End (negsuc 0)) ∷ []) stops.Finished
        ≡ [] }
{}

/// Deliveries without an outstanding cancel, or with general cancelability off.
#[tactic(auto, unfolding(crate::specs::Computing::law_words))]
pub fn wrong_deliveries()
    ensures merged_delivered_twice { failing merging_cancels
        (cancelled_twice merged ++ (by 2 (what.Deliver 2 (at 7)) ∷ by 2 (what.Bottom 2 (negsuc 0)) ∷ by 2 (what.End (negsuc 0))
        ∷ [])) stops.Memory
        ≡ DeliversOutstanding ∷ [] }
    ensures never_cancelled { failing merging_cancels
        (by 2 (what.Try 1 (at 4)) ∷ by 2 (what.Deliver 1 (at 5)) ∷ by 2 (what.Catch 1 1 (at 6)) ∷ []) stops.Memory
        ≡ DeliversOutstanding ∷ [] }
    ensures another_cancelled { failing merging_cancels
        (calls 1 word.Cancel (number 3 ∷ []) pending ∷ by 2 (what.Deliver 1 (at 5)) ∷ by 2 (what.Bottom 1 (negsuc 0)) ∷ [])
        stops.Memory
        ≡ DeliversOutstanding ∷ [] }
    ensures not_there { failing merging_cancels
        (calls 1 word.Cancel (number 2 ∷ []) reply.Esrch ∷ by 2 (what.Deliver 1 (at 5)) ∷ by 2 (what.Bottom 1 (negsuc 0))
        ∷ []) stops.Memory
        ≡ DeliversOutstanding ∷ [] }
    ensures general_off { failing asynchronous
        (calls 1 word.Setcancel (second ∷ []) (value 1) ∷ calls 1 word.Cancel (number 1 ∷ []) pending
        ∷ by 1 (what.Deliver 1 (at 7)) ∷ by 1 (what.Bottom 1 (negsuc 0)) ∷ []) stops.Memory
        ≡ DeliversOutstanding ∷ [] }
    ensures general_on_again { failing asynchronous
        (calls 1 word.Setcancel (second ∷ []) (value 1) ∷ calls 1 word.Cancel (number 1 ∷ []) pending
        ∷ calls 1 word.Setcancel (first ∷ []) (value 0) ∷ by 1 (what.Deliver 1 (at 7)) ∷ by 1 (what.Bottom 1 (negsuc 0)) ∷ [])
        stops.Memory
        ≡ [] }
{}

/// Effects other than the one that holds.
#[tactic(auto, unfolding(crate::specs::Computing::law_words))]
pub fn wrong_effects()
    ensures pending_twice { failing merging_cancels
        (cancelled_twice pending ++ (calls 2 word.Testcancel [] reply.Done ∷ by 2 (what.Endcatch 1) ∷ by 2 (what.End (pos 0))
        ∷ joined_and_cancelled ended)) stops.Finished
        ≡ HasItsEffect ∷ [] }
    ensures merged_first { failing merging_cancels (calls 1 word.Cancel (number 2 ∷ []) merged ∷ []) stops.Memory
        ≡ HasItsEffect ∷ [] }
    ensures merged_after_the_delivery { failing merging_cancels
        (cancelled_twice merged ++ (calls 3 word.Cancel (number 2 ∷ []) merged ∷ [])) stops.Memory
        ≡ HasItsEffect ∷ [] }
    ensures ended_while_it_runs { failing merging_cancels (by 2 (what.Say (pos 7)) ∷ calls 1 word.Cancel (number 2 ∷ []) ended
        ∷ []) stops.Memory
        ≡ HasItsEffect ∷ [] }
    ensures pending_after_its_end { failing merging_cancels
        (cancelled_twice merged ++ (calls 2 word.Testcancel [] reply.Done ∷ by 2 (what.Endcatch 1) ∷ by 2 (what.End (pos 0))
        ∷ joined_and_cancelled pending)) stops.Finished
        ≡ HasItsEffect ∷ [] }
    ensures merged_after_its_end { failing merging_cancels
        (calls 1 word.Cancel (number 2 ∷ []) pending ∷ by 2 (what.End (pos 0)) ∷ calls 1 word.Cancel (number 2 ∷ []) merged
        ∷ []) stops.Memory
        ≡ HasItsEffect ∷ [] }
    ensures ended_with_one_outstanding { failing merging_cancels
        (calls 1 word.Cancel (number 2 ∷ []) pending ∷ by 2 (what.End (pos 0)) ∷ calls 1 word.Cancel (number 2 ∷ []) ended
        ∷ []) stops.Memory
        ≡ [] }
    ensures wakes_without_a_wait { failing merging_cancels
        (by 2 (what.Say (pos 7)) ∷ calls 1 word.Cancel (number 2 ∷ []) wakes ∷ by 2 (what.Deliver 1 (at 5))
        ∷ by 2 (what.Bottom 1 (negsuc 0)) ∷ []) stops.Memory
        ≡ HasItsEffect ∷ [] }
    ensures wakes_at_a_mutex { failing three_lock
        (calls 2 word.MutexLock (of m ∷ []) reply.Blocks ∷ calls 1 word.Cancel (number 2 ∷ []) wakes
        ∷ by 2 (what.Deliver 1 (at 4)) ∷ by 2 (what.Bottom 1 (negsuc 0)) ∷ []) stops.Memory
        ≡ HasItsEffect ∷ [] }
    ensures wakes_after_a_return { failing points
        (calls 2 word.DelayNp (number 5 ∷ []) reply.Blocks ∷ by 2 (what.Ret reply.Done)
        ∷ calls 1 word.Cancel (number 2 ∷ []) wakes ∷ []) stops.Memory
        ≡ HasItsEffect ∷ [] }
    ensures wakes_with_general_off { failing points
        (calls 2 word.Setcancel (second ∷ []) (value 1) ∷ calls 2 word.DelayNp (number 5 ∷ []) reply.Blocks
        ∷ calls 1 word.Cancel (number 2 ∷ []) wakes ∷ []) stops.Memory
        ≡ HasItsEffect ∷ [] }
    ensures wakes_twice { failing points
        (calls 2 word.DelayNp (number 5 ∷ []) reply.Blocks ∷ calls 1 word.Cancel (number 2 ∷ []) wakes
        ∷ calls 1 word.Cancel (number 2 ∷ []) wakes ∷ by 2 (what.Deliver 1 (at 10)) ∷ by 2 (what.Bottom 1 (negsuc 0)) ∷ [])
        stops.Memory
        ≡ HasItsEffect ∷ [] }
    ensures pending_at_a_mutex { failing three_lock
        (calls 2 word.MutexLock (of m ∷ []) reply.Blocks ∷ calls 1 word.Cancel (number 2 ∷ []) pending ∷ []) stops.Memory
        ≡ [] }
{}

/// Calls of points where a cancel had to be delivered.
#[tactic(auto, unfolding(crate::specs::Computing::law_words))]
pub fn passed_points()
    ensures tested { failing asynchronous
        (calls 1 word.Cancel (number 1 ∷ []) pending ∷ calls 1 word.Testcancel [] reply.Done ∷ []) stops.Memory
        ≡ PassesNoPoint ∷ [] }
    ensures waits { failing points
        (calls 1 word.Cancel (number 1 ∷ []) pending ∷ calls 1 word.DelayNp (number 5 ∷ []) reply.Blocks ∷ []) stops.Memory
        ≡ PassesNoPoint ∷ [] }
    ensures replies_at_once { failing points
        (calls 2 word.Cancel (number 1 ∷ []) pending ∷ calls 1 word.Read (of p ∷ []) (value 3) ∷ []) stops.Memory
        ≡ PassesNoPoint ∷ [] }
    ensures no_point { failing points
        (calls 1 word.Cancel (number 1 ∷ []) pending ∷ calls 1 word.Yield [] reply.Done
        ∷ calls 1 word.MutexLock (of m ∷ []) reply.Blocks ∷ []) stops.Memory
        ≡ [] }
{}

/// Lines where both cancelabilities are on and a cancel is outstanding.
#[tactic(auto, unfolding(crate::specs::Computing::law_words))]
pub fn deliveries_at_once()
    ensures says_on { failing asynchronous
        (calls 1 word.Setcancel (second ∷ []) (value 1) ∷ calls 1 word.Setasynccancel (first ∷ []) (value 0)
        ∷ calls 1 word.Cancel (number 1 ∷ []) pending ∷ calls 1 word.Testcancel [] reply.Done
        ∷ calls 1 word.Setcancel (first ∷ []) (value 0) ∷ by 1 (what.Say (pos 9)) ∷ []) stops.Memory
        ≡ DeliversAtOnce ∷ [] }
    ensures pauses { failing asynchronous
        (calls 1 word.Setasynccancel (first ∷ []) (value 0) ∷ calls 1 word.Cancel (number 1 ∷ []) pending ∷ by 1 what.Pause
        ∷ []) stops.Memory
        ≡ DeliversAtOnce ∷ [] }
    ensures raises { failing points
        (calls 2 word.Setasynccancel (first ∷ []) (value 0) ∷ calls 1 word.Cancel (number 2 ∷ []) pending
        ∷ by 2 (what.Raise 1 pipe_e) ∷ by 2 (what.Bottom 1 (negsuc 1)) ∷ []) stops.Memory
        ≡ DeliversAtOnce ∷ [] }
    ensures says_after_its_return { failing three_lock
        (calls 2 word.Setasynccancel (first ∷ []) (value 0) ∷ calls 2 word.MutexLock (of m ∷ []) reply.Blocks
        ∷ calls 1 word.Cancel (number 2 ∷ []) pending ∷ by 2 (what.Gift (Some m)) ∷ by 2 (what.Ret reply.Done)
        ∷ by 2 (what.Say (pos 9)) ∷ []) stops.Memory
        ≡ DeliversAtOnce ∷ [] }
    ensures after_its_return { failing three_lock
        (calls 2 word.Setasynccancel (first ∷ []) (value 0) ∷ calls 2 word.MutexLock (of m ∷ []) reply.Blocks
        ∷ calls 1 word.Cancel (number 2 ∷ []) pending ∷ by 2 (what.Gift (Some m)) ∷ by 2 (what.Ret reply.Done)
        ∷ by 2 (what.Deliver 1 (at 5)) ∷ by 2 (what.Bottom 1 (negsuc 0)) ∷ by 2 (what.End (negsuc 0)) ∷ []) stops.Memory
        ≡ [] }
    ensures raises_after_its_return { failing three_lock
        (calls 2 word.Setasynccancel (first ∷ []) (value 0) ∷ calls 2 word.MutexLock (of m ∷ []) reply.Blocks
        ∷ calls 1 word.Cancel (number 2 ∷ []) pending ∷ by 2 (what.Gift (Some m)) ∷ by 2 (what.Ret reply.Done)
        ∷ by 2 (what.Raise 1 pipe_e) ∷ by 2 (what.Bottom 1 (negsuc 1)) ∷ by 2 (what.End (negsuc 1)) ∷ []) stops.Memory
        ≡ DeliversAtOnce ∷ [] }
    ensures runs_a_block_after_a_lock { failing once_unwound
        (calls 2 word.Setasynccancel (first ∷ []) (value 0) ∷ calls 2 word.MutexLock (of m ∷ []) reply.Blocks
        ∷ calls 1 word.Cancel (number 2 ∷ []) pending ∷ by 2 (what.Gift (Some m)) ∷ by 2 (what.Ret reply.Done)
        ∷ by 2 (what.Once 1 o) ∷ by 2 (what.Deliver 1 (at 4)) ∷ by 2 (what.Undone 1 1) ∷ by 2 (what.Bottom 1 (negsuc 0)) ∷ [])
        stops.Memory
        ≡ DeliversAtOnce ∷ [] }
    ensures runs_another_block { failing once_unwound
        (calls 2 word.Setasynccancel (first ∷ []) (value 0) ∷ calls 2 word.Once (of o ∷ of j ∷ []) reply.Blocks
        ∷ calls 1 word.Cancel (number 2 ∷ []) pending ∷ by 2 (what.Ret reply.Done) ∷ by 2 (what.Once 1 c)
        ∷ by 2 (what.Deliver 1 (at 4)) ∷ by 2 (what.Undone 1 1) ∷ by 2 (what.Bottom 1 (negsuc 0)) ∷ []) stops.Memory
        ≡ DeliversAtOnce ∷ [] }
    ensures return_that_raises_another { failing points
        (calls 2 word.Setasynccancel (first ∷ []) (value 0) ∷ calls 2 word.Write (of p ∷ number 3 ∷ []) reply.Blocks
        ∷ calls 1 word.Close (of p ∷ []) reply.Done ∷ calls 1 word.Cancel (number 2 ∷ []) pending
        ∷ by 2 (what.Ret reply.Epipe) ∷ by 2 (what.Raise 1 intovf_e) ∷ by 2 (what.Bottom 1 (negsuc 1))
        ∷ by 2 (what.End (negsuc 1)) ∷ []) stops.Memory
        ≡ DeliversAtOnce ∷ [] }
    ensures late_wait_that_raises { failing points
        (calls 2 word.Setasynccancel (first ∷ []) (value 0) ∷ calls 2 word.MutexInit (of m ∷ first ∷ []) reply.Done
        ∷ calls 2 word.MutexLock (of m ∷ []) reply.Done ∷ calls 2 word.CondTimedwait (of c ∷ of m ∷ number 9 ∷ []) reply.Blocks ∷ clock 9
        ∷ by 2 (what.Gift (Some m)) ∷ calls 1 word.Cancel (number 2 ∷ []) pending ∷ by 2 (what.Ret reply.Eagain)
        ∷ by 2 (what.Raise 1 exhaust_e) ∷ by 2 (what.Bottom 1 (negsuc 1)) ∷ []) stops.Memory
        ≡ DeliversAtOnce ∷ [] }
    ensures error_without_raise { failing quiet_errors
        (calls 2 word.Setasynccancel (first ∷ []) (value 0) ∷ calls 2 word.Write (of p ∷ number 3 ∷ []) reply.Blocks
        ∷ calls 1 word.Close (of p ∷ []) reply.Done ∷ calls 1 word.Cancel (number 2 ∷ []) pending
        ∷ by 2 (what.Ret reply.Epipe) ∷ by 2 (what.Raise 1 pipe_e) ∷ by 2 (what.Bottom 1 (negsuc 1)) ∷ []) stops.Memory
        ≡ DeliversAtOnce ∷ [] }
    ensures return_that_raises { failing points
        (calls 2 word.Setasynccancel (first ∷ []) (value 0) ∷ calls 2 word.Write (of p ∷ number 3 ∷ []) reply.Blocks
        ∷ calls 1 word.Close (of p ∷ []) reply.Done ∷ calls 1 word.Cancel (number 2 ∷ []) pending
        ∷ by 2 (what.Ret reply.Epipe) ∷ by 2 (what.Raise 1 pipe_e) ∷ by 2 (what.Bottom 1 (negsuc 1))
        ∷ by 2 (what.End (negsuc 1)) ∷ []) stops.Memory
        ≡ [] }
    ensures return_that_runs_a_block { failing once_unwound
        (calls 2 word.Setasynccancel (first ∷ []) (value 0) ∷ calls 2 word.Once (of o ∷ of j ∷ []) reply.Blocks
        ∷ calls 1 word.Cancel (number 2 ∷ []) pending ∷ by 2 (what.Ret reply.Done) ∷ by 2 (what.Once 1 o)
        ∷ by 2 (what.Deliver 1 (at 4)) ∷ by 2 (what.Undone 1 1) ∷ by 2 (what.Bottom 1 (negsuc 0)) ∷ []) stops.Memory
        ≡ [] }
    ensures outward_first { failing points
        (calls 2 word.Setasynccancel (first ∷ []) (value 0) ∷ by 2 (what.Raise 1 pipe_e) ∷ by 2 what.Pause
        ∷ calls 1 word.Cancel (number 2 ∷ []) pending ∷ by 2 (what.Bottom 1 (negsuc 1)) ∷ by 2 (what.Destroy 1 k (pos 4))
        ∷ by 2 (what.Deliver 2 (at 5)) ∷ by 2 (what.Lost 1 2) ∷ by 2 (what.End (negsuc 1)) ∷ []) stops.Memory
        ≡ [] }
    ensures general_off { failing asynchronous
        (calls 1 word.Setcancel (second ∷ []) (value 1) ∷ calls 1 word.Setasynccancel (first ∷ []) (value 0)
        ∷ calls 1 word.Cancel (number 1 ∷ []) pending ∷ by 1 (what.Say (pos 9)) ∷ []) stops.Memory
        ≡ [] }
    ensures asynchronous_off_again { failing asynchronous
        (calls 1 word.Setasynccancel (first ∷ []) (value 0) ∷ calls 1 word.Setasynccancel (second ∷ []) (value 1)
        ∷ calls 1 word.Cancel (number 1 ∷ []) pending ∷ by 1 (what.Say (pos 9)) ∷ []) stops.Memory
        ≡ [] }
{}

/// Threads that were woken by a cancel and go on otherwise.
#[tactic(auto, unfolding(crate::specs::Computing::law_words))]
pub fn woken_threads()
    ensures returns { failing points
        (calls 2 word.Join (number 1 ∷ []) reply.Blocks ∷ calls 1 word.Cancel (number 2 ∷ []) wakes
        ∷ by 2 (what.Ret (value 0)) ∷ []) stops.Memory
        ≡ DeliversWhenWoken ∷ [] }
    ensures delivers { failing points
        (calls 2 word.Join (number 1 ∷ []) reply.Blocks ∷ calls 1 word.Cancel (number 2 ∷ []) wakes
        ∷ by 2 (what.Deliver 1 (at 11)) ∷ []) stops.Memory
        ≡ [] }
{}

/// Waits on a condition that end before the thread has its mutex.
#[tactic(auto, unfolding(crate::specs::Computing::law_words))]
pub fn waits_without_their_mutex()
    ensures cancelled_while_another_has_it { failing cancelled_wait
        (up_to_the_cancel ++ (calls 1 word.Cancel (number 2 ∷ []) wakes ∷ by 2 (what.Deliver 1 (at 8)) ∷ by 2 (what.Finally 1 1)
        ∷ [])) stops.Memory
        ≡ EndsWithItsMutex ∷ [] }
    ensures cancelled_while_it_is_free { failing cancelled_wait
        (up_to_the_cancel ++ (calls 1 word.Cancel (number 2 ∷ []) wakes ∷ calls 1 word.MutexUnlock (of m ∷ []) reply.Done
        ∷ by 2 (what.Deliver 1 (at 8)) ∷ by 2 (what.Finally 1 1) ∷ [])) stops.Memory
        ≡ EndsWithItsMutex ∷ [] }
    ensures signalled { failing signalled_wait
        (up_to_the_cancel ++ (calls 1 word.CondSignal (of c ∷ []) reply.Done ∷ by 2 (what.Ret reply.Done) ∷ [])) stops.Memory
        ≡ EndsWithItsMutex ∷ [] }
    ensures out_of_time { failing points
        (calls 2 word.MutexLock (of m ∷ []) reply.Done ∷ calls 2 word.CondTimedwait (of c ∷ of m ∷ number 9 ∷ []) reply.Blocks
        ∷ clock 9 ∷ by 2 (what.Ret reply.Eagain) ∷ []) stops.Memory
        ≡ EndsWithItsMutex ∷ [] }
    ensures in_time { failing points
        (calls 2 word.MutexLock (of m ∷ []) reply.Done ∷ calls 2 word.CondTimedwait (of c ∷ of m ∷ number 9 ∷ []) reply.Blocks
        ∷ clock 9 ∷ by 2 (what.Gift (Some m)) ∷ by 2 (what.Ret reply.Eagain) ∷ []) stops.Memory
        ≡ [] }
{}
