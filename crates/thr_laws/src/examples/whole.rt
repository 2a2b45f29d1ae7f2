//! Whole histories of several threads, which meet all laws.

ghost use Rattle.std.specs.Prelude.{◌≡◌, ◌∷◌, [], pos, negsuc, Some};
ghost use Rattle.thr_values.specs.Exceptions.{pipe_e};
ghost use Rattle.thr_values.specs.declared.call.CallWord.TheVariants as word;
ghost use Rattle.thr_values.specs.declared.event.Stop.TheVariants as stops;
ghost use Rattle.thr_values.specs.declared.history.What.TheVariants as what;
ghost use Rattle.thr_values.specs.declared.reply.Reply.TheVariants as reply;
ghost use Rattle.thr_remainder.specs.Samples.{c, j, m, o, p, r};
ghost use Rattle.thr_laws.specs.Passing.{failing};
ghost use Rattle.thr_laws.specs.Samples.{
  at,
  by,
  calls,
  cancelled_reader,
  clock,
  equal_times,
  first,
  number,
  of,
  once_unwound,
  runs,
  value,
  wakes,
};

/// A once routine is unwound while two threads wait for it.
#[tactic(auto, unfolding(crate::specs::Computing::law_words))]
pub fn once_routine_unwound()
    ensures { failing once_unwound
        (runs 0 1 ∷ calls 1 word.Create (first ∷ of r ∷ number 1 ∷ []) (value 2) ∷ calls 1 word.Yield [] reply.Done ∷ runs 0 2
        ∷ calls 2 word.Once (of o ∷ of j ∷ []) reply.Done ∷ by 2 (what.Once 1 o)
        ∷ calls 2 word.DelayNp (number 10 ∷ []) reply.Blocks ∷ runs 0 1
        ∷ calls 1 word.Create (first ∷ of r ∷ number 2 ∷ []) (value 3)
        ∷ calls 1 word.Create (first ∷ of r ∷ number 3 ∷ []) (value 4) ∷ calls 1 word.Yield [] reply.Done ∷ runs 0 3
        ∷ calls 3 word.Once (of o ∷ of j ∷ []) reply.Blocks ∷ runs 0 4 ∷ calls 4 word.Once (of o ∷ of j ∷ []) reply.Blocks
        ∷ runs 0 1 ∷ calls 1 word.Setprio (number 4 ∷ number 20 ∷ []) (value 16) ∷ calls 1 word.Cancel (number 2 ∷ []) wakes
        ∷ by 1 (what.End (pos 0)) ∷ runs 0 2 ∷ by 2 (what.Deliver 1 (at 4)) ∷ by 2 (what.Undone 1 1) ∷ runs 0 4
        ∷ by 4 (what.Ret reply.Done) ∷ by 4 (what.Once 1 o) ∷ calls 4 word.DelayNp (number 10 ∷ []) reply.Blocks ∷ runs 0 2
        ∷ by 2 (what.Bottom 1 (negsuc 0)) ∷ by 2 (what.End (negsuc 0)) ∷ clock 10 ∷ runs 0 4 ∷ by 4 (what.Ret reply.Done)
        ∷ by 4 (what.Done 1) ∷ by 4 (what.Say (pos 3)) ∷ by 4 (what.End (pos 0)) ∷ runs 0 3 ∷ by 3 (what.Ret reply.Done)
        ∷ by 3 (what.Say (pos 2)) ∷ by 3 (what.End (pos 0)) ∷ []) stops.Finished
        ≡ [] }
{}

/// A reader is cancelled while another waits, and a write into a closed pipe raises.
#[tactic(auto, unfolding(crate::specs::Computing::law_words))]
pub fn reader_cancelled()
    ensures { failing cancelled_reader
        (runs 0 1 ∷ calls 1 word.Create (first ∷ of r ∷ number 0 ∷ []) (value 2)
        ∷ calls 1 word.Create (first ∷ of r ∷ number 0 ∷ []) (value 3) ∷ calls 1 word.Yield [] reply.Done ∷ runs 0 2
        ∷ calls 2 word.Read (of p ∷ []) reply.Blocks ∷ runs 0 3 ∷ calls 3 word.Read (of p ∷ []) reply.Blocks ∷ runs 0 1
        ∷ calls 1 word.Cancel (number 2 ∷ []) wakes ∷ calls 1 word.Write (of p ∷ number 7 ∷ []) reply.Done
        ∷ calls 1 word.Join (number 3 ∷ []) reply.Blocks ∷ runs 0 2 ∷ by 2 (what.Deliver 1 (at 6))
        ∷ by 2 (what.Bottom 1 (negsuc 0)) ∷ by 2 (what.End (negsuc 0)) ∷ runs 0 3 ∷ by 3 (what.Ret (value 7))
        ∷ by 3 (what.Say (pos 7)) ∷ by 3 (what.End (pos 0)) ∷ runs 0 1 ∷ by 1 (what.Ret (value 0))
        ∷ calls 1 word.Close (of p ∷ []) reply.Done ∷ calls 1 word.Write (of p ∷ number 8 ∷ []) reply.Epipe
        ∷ by 1 (what.Raise 1 pipe_e) ∷ by 1 (what.Bottom 1 (negsuc 1)) ∷ by 1 (what.End (negsuc 1)) ∷ []) stops.Finished
        ≡ [] }
{}

/// Two timed waits with one mutex end at one time.
#[tactic(auto, unfolding(crate::specs::Computing::law_words))]
pub fn waits_of_equal_times()
    ensures { failing equal_times
        (runs 0 1 ∷ calls 1 word.MutexInit (of m ∷ first ∷ []) reply.Done ∷ calls 1 word.CondInit (of c ∷ []) reply.Done
        ∷ calls 1 word.Create (first ∷ of r ∷ number 0 ∷ []) (value 2)
        ∷ calls 1 word.Create (first ∷ of r ∷ number 0 ∷ []) (value 3) ∷ calls 1 word.DelayNp (number 0 ∷ []) reply.Done
        ∷ by 1 (what.End (pos 0)) ∷ runs 0 2 ∷ calls 2 word.MutexLock (of m ∷ []) reply.Done
        ∷ calls 2 word.CondTimedwait (of c ∷ of m ∷ number 20 ∷ []) reply.Blocks ∷ runs 0 3
        ∷ calls 3 word.MutexLock (of m ∷ []) reply.Done
        ∷ calls 3 word.CondTimedwait (of c ∷ of m ∷ number 20 ∷ []) reply.Blocks ∷ clock 20 ∷ by 2 (what.Gift (Some m))
        ∷ runs 0 2 ∷ by 2 (what.Ret reply.Eagain) ∷ by 2 (what.Say (pos 11)) ∷ calls 2 word.MutexUnlock (of m ∷ []) reply.Done
        ∷ by 3 (what.Gift (Some m)) ∷ by 2 (what.End (pos 0)) ∷ runs 0 3 ∷ by 3 (what.Ret reply.Eagain)
        ∷ by 3 (what.Say (pos 11)) ∷ calls 3 word.MutexUnlock (of m ∷ []) reply.Done ∷ by 3 (what.End (pos 0)) ∷ [])
        stops.Finished
        ≡ [] }
{}
