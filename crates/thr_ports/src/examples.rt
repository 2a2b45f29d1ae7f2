//! Signalled waiters that are cancelled before they return, waits on conditions with what ends them, and FINALLY bodies in their order,
//! computed from the definitions.

ghost use Rattle.std.specs.Prelude.{◌≡◌, ◌∷◌, ◌++◌, [], map, pos, Some, true, false};
ghost use Rattle.thr_values.specs.declared.call.CallWord.TheVariants as word;
ghost use Rattle.thr_values.specs.declared.exception.Exc.TheVariants.{Status};
ghost use Rattle.thr_values.specs.declared.history.What.TheVariants as what;
ghost use Rattle.thr_values.specs.declared.reply.Reply.TheVariants as reply;
ghost use Rattle.thr_remainder.specs.Samples.{c, m, o};
ghost use Rattle.thr_laws.specs.Samples.{at, by, calls, clock, merged, number, of, pending, up_to_the_cancel, wakes};
ghost use Rattle.thr_ports.specs.Broadcasts.{broadcasts_end_waits};
ghost use Rattle.thr_ports.specs.Finallys.{begin_inner_first};
ghost use Rattle.thr_ports.specs.Returning.{returns_leave_cancels};
ghost use Rattle.thr_ports.specs.Signals.{plainly, taking, waits_end_by};

/// The canceller signals the waiter first: the cancel stays pending, and so does one that merges with it. None is woken by it.
#[tactic(auto, unfolding(thr_laws::specs::Computing::law_words))]
pub fn signalled_waiters()
    ensures once { returns_leave_cancels 2
        (up_to_the_cancel ++ (calls 1 word.CondSignal (of c ∷ []) reply.Done ∷ calls 1 word.Cancel (number 2 ∷ []) pending
        ∷ calls 1 word.MutexUnlock (of m ∷ []) reply.Done ∷ by 2 (what.Gift (Some m)) ∷ by 2 (what.Ret reply.Done) ∷ []))
        ≡ true }
    ensures twice { returns_leave_cancels 2
        (up_to_the_cancel ++ (calls 1 word.CondSignal (of c ∷ []) reply.Done ∷ calls 1 word.Cancel (number 2 ∷ []) pending
        ∷ calls 1 word.Cancel (number 2 ∷ []) merged ∷ by 2 (what.Gift (Some m)) ∷ by 2 (what.Ret reply.Done) ∷ []))
        ≡ true }
    ensures woken { returns_leave_cancels 2
        (up_to_the_cancel ++ (calls 1 word.CondSignal (of c ∷ []) reply.Done ∷ calls 1 word.Cancel (number 2 ∷ []) wakes
        ∷ by 2 (what.Gift (Some m)) ∷ by 2 (what.Ret reply.Done) ∷ []))
        ≡ false }
    ensures merged_with_none { returns_leave_cancels 2
        (up_to_the_cancel ++ (calls 1 word.CondSignal (of c ∷ []) reply.Done ∷ calls 1 word.Cancel (number 2 ∷ []) merged
        ∷ by 2 (what.Gift (Some m)) ∷ by 2 (what.Ret reply.Done) ∷ []))
        ≡ false }
{}

/// A signal takes the waiter, which the canceller then cancels: the cancel stays pending or merges, and the wait returns `ok`.
#[tactic(auto, unfolding(thr_laws::specs::Computing::law_words))]
pub fn signals_that_take_a_waiter()
    ensures returns { waits_end_by 2
        (map plainly up_to_the_cancel ++ (taking 2 (calls 1 word.CondSignal (of c ∷ []) reply.Done)
        ∷ plainly (calls 1 word.Cancel (number 2 ∷ []) pending) ∷ plainly (calls 1 word.Cancel (number 2 ∷ []) merged)
        ∷ plainly (by 2 (what.Gift (Some m))) ∷ plainly (by 2 (what.Ret reply.Done)) ∷ []))
        ≡ true }
    ensures another { waits_end_by 2
        (map plainly up_to_the_cancel ++ (taking 3 (calls 1 word.CondSignal (of c ∷ []) reply.Done)
        ∷ plainly (calls 1 word.Cancel (number 2 ∷ []) wakes) ∷ plainly (by 2 (what.Gift (Some m))) ∷ plainly (by 2 (what.Deliver 1 (at 8))) ∷ []))
        ≡ true }
    ensures woken { waits_end_by 2
        (map plainly up_to_the_cancel ++ (taking 2 (calls 1 word.CondSignal (of c ∷ []) reply.Done)
        ∷ plainly (calls 1 word.Cancel (number 2 ∷ []) wakes) ∷ []))
        ≡ false }
    ensures delivers { waits_end_by 2
        (map plainly up_to_the_cancel ++ (taking 2 (calls 1 word.CondSignal (of c ∷ []) reply.Done)
        ∷ plainly (calls 1 word.Cancel (number 2 ∷ []) pending) ∷ plainly (by 2 (what.Gift (Some m))) ∷ plainly (by 2 (what.Deliver 1 (at 8))) ∷ []))
        ≡ false }
    ensures late { waits_end_by 2
        (map plainly up_to_the_cancel ++ (taking 2 (calls 1 word.CondSignal (of c ∷ []) reply.Done)
        ∷ plainly (by 2 (what.Gift (Some m))) ∷ plainly (by 2 (what.Ret reply.Eagain)) ∷ []))
        ≡ false }
    ensures nobody { waits_end_by 2
        (map plainly up_to_the_cancel ++ (plainly (calls 1 word.CondSignal (of c ∷ []) reply.Done) ∷ []))
        ≡ false }
    ensures nobody_there { waits_end_by 2
        (map plainly up_to_the_cancel ++ (taking 2 (calls 1 word.CondSignal (of o ∷ []) reply.Done) ∷ []))
        ≡ false }
    ensures unasked { waits_end_by 2 (map plainly up_to_the_cancel ++ (plainly (by 2 (what.Ret reply.Done)) ∷ [])) ≡ false }
{}

/// A broadcast, and times: a wait whose time came before the broadcast returns EAGAIN, and one that the broadcast found returns `ok`.
#[tactic(auto, unfolding(thr_laws::specs::Computing::law_words))]
pub fn broadcasts_and_times()
    ensures broadcast { waits_end_by 2
        (map plainly (up_to_the_cancel ++ (calls 1 word.CondBroadcast (of c ∷ []) reply.Done ∷ calls 1 word.Cancel (number 2 ∷ []) pending
        ∷ by 2 (what.Gift (Some m)) ∷ by 2 (what.Ret reply.Done) ∷ [])))
        ≡ true }
    ensures woken { waits_end_by 2
        (map plainly (up_to_the_cancel ++ (calls 1 word.CondBroadcast (of c ∷ []) reply.Done ∷ calls 1 word.Cancel (number 2 ∷ []) wakes ∷ [])))
        ≡ false }
    ensures in_time { waits_end_by 2
        (map plainly (calls 2 word.CondTimedwait (of c ∷ of m ∷ number 7 ∷ []) reply.Blocks ∷ calls 1 word.CondBroadcast (of c ∷ []) reply.Done
        ∷ clock 7 ∷ by 2 (what.Gift (Some m)) ∷ by 2 (what.Ret reply.Done) ∷ []))
        ≡ true }
    ensures too_late { waits_end_by 2
        (map plainly (calls 2 word.CondTimedwait (of c ∷ of m ∷ number 7 ∷ []) reply.Blocks ∷ clock 7
        ∷ calls 1 word.CondBroadcast (of c ∷ []) reply.Done ∷ by 2 (what.Gift (Some m)) ∷ by 2 (what.Ret reply.Eagain) ∷ []))
        ≡ true }
    ensures told { broadcasts_end_waits 2
        (up_to_the_cancel ++ (calls 1 word.CondBroadcast (of c ∷ []) reply.Done ∷ calls 1 word.Cancel (number 2 ∷ []) pending
        ∷ by 2 (what.Gift (Some m)) ∷ by 2 (what.Ret reply.Done) ∷ []))
        ≡ true }
    ensures told_woken { broadcasts_end_waits 2
        (up_to_the_cancel ++ (calls 1 word.CondBroadcast (of c ∷ []) reply.Done ∷ calls 1 word.Cancel (number 2 ∷ []) wakes ∷ []))
        ≡ false }
    ensures told_late { broadcasts_end_waits 2
        (up_to_the_cancel ++ (calls 1 word.CondBroadcast (of c ∷ []) reply.Done ∷ by 2 (what.Gift (Some m)) ∷ by 2 (what.Ret reply.Eagain)
        ∷ []))
        ≡ false }
    ensures not_yet { waits_end_by 2
        (map plainly (calls 2 word.CondTimedwait (of c ∷ of m ∷ number 7 ∷ []) reply.Blocks ∷ clock 6 ∷ by 2 (what.Ret reply.Eagain) ∷ []))
        ≡ false }
{}

/// Two tries with FINALLY bodies: the inner one begins first, and none begins twice for one unwinding.
#[tactic(auto, unfolding(thr_laws::specs::Computing::law_words))]
pub fn two_finally_bodies()
    ensures inner_first { begin_inner_first
        (what.Try 1 (at 4) ∷ what.Try 2 (at 5) ∷ what.Raise 1 (Status (pos 5)) ∷ what.Finally 2 1 ∷ what.Endfin 2 ∷ what.Finally 1 1
        ∷ what.Endfin 1 ∷ [])
        ≡ true }
    ensures outer_alone { begin_inner_first
        (what.Try 1 (at 4) ∷ what.Try 2 (at 5) ∷ what.Raise 1 (Status (pos 5)) ∷ what.Finally 1 1 ∷ what.Endfin 1 ∷ [])
        ≡ true }
    ensures outer_first { begin_inner_first
        (what.Try 1 (at 4) ∷ what.Try 2 (at 5) ∷ what.Raise 1 (Status (pos 5)) ∷ what.Finally 1 1 ∷ what.Endfin 1 ∷ what.Finally 2 1
        ∷ what.Endfin 2 ∷ [])
        ≡ false }
    ensures twice { begin_inner_first
        (what.Try 1 (at 4) ∷ what.Try 2 (at 5) ∷ what.Raise 1 (Status (pos 5)) ∷ what.Finally 2 1 ∷ what.Endfin 2 ∷ what.Finally 2 1
        ∷ what.Endfin 2 ∷ [])
        ≡ false }
    ensures ended_before { begin_inner_first
        (what.Try 1 (at 4) ∷ what.Try 2 (at 5) ∷ what.Endtry 2 ∷ what.Raise 1 (Status (pos 5)) ∷ what.Finally 2 1 ∷ [])
        ≡ false }
{}
