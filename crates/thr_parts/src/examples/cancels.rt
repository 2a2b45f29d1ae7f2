//! Cancelabilities and cancels.

ghost use Rattle.std.specs.Prelude.{◌≡◌, ◌∷◌, [], Some, None, true, false, pos, negsuc};
ghost use Rattle.thr_values.specs.declared.reply.Effect.TheVariants.{Ended, Merged, Pending, Wakes};
ghost use Rattle.thr_values.specs.declared.reply.Reply.TheVariants as reply;
ghost use Rattle.thr_values.specs.declared.reply.Kind.TheVariants.{Fast};
ghost use Rattle.thr_parts.specs.declared.row.RowId.TheVariants as row;
ghost use Rattle.thr_parts.specs.declared.wait.Wait.TheVariants.{Cond, Delay};
ghost use Rattle.thr_parts.specs.Tables.{none};
ghost use Rattle.thr_parts.specs.Rows.{thread};
ghost use Rattle.thr_parts.specs.Cancels.{setcancel, setasynccancel, waits_at_point, cancel, deliver};
ghost use Rattle.thr_parts.specs.CancelledWaits.{cancel_wait};
ghost use Rattle.thr_parts.specs.Mutexes.{no_locks};
ghost use Rattle.thr_parts.specs.Conditions.{no_conds};
ghost use Rattle.thr_parts.specs.Pipes.{no_pipes};
ghost use Rattle.thr_parts.specs.Samples.{name, rows, running_at, standing_in, threads, mode, in_mode, ended_thread, free, held, locks, conds, pipes};

/// The calls that set the cancelabilities reply the old state.
#[tactic(auto, unfolding(crate::specs::Computing::parts_words))]
pub fn cancelabilities()
    ensures general_off { setcancel (threads ((1, in_mode 1 (mode true true false)) ∷ []) 2) (thread 1) false
        ≡ record { reply = reply.Value (pos 1); threads = threads ((1, in_mode 1 (mode true false false)) ∷ []) 2 } }
    ensures general_on { setcancel (threads ((1, in_mode 1 (mode false false true)) ∷ []) 2) (thread 1) true
        ≡ record { reply = reply.Value (pos 0); threads = threads ((1, in_mode 1 (mode false true true)) ∷ []) 2 } }
    ensures asynchronous_on { setasynccancel (threads ((1, in_mode 1 (mode false true false)) ∷ []) 2) (thread 1) true
        ≡ record { reply = reply.Value (pos 0); threads = threads ((1, in_mode 1 (mode false true true)) ∷ []) 2 } }
    ensures asynchronous_off { setasynccancel (threads ((1, in_mode 1 (mode false true true)) ∷ []) 2) (thread 1) false
        ≡ record { reply = reply.Value (pos 1); threads = threads ((1, in_mode 1 (mode false true false)) ∷ []) 2 } }
{}

/// The effects of a cancel, the first that holds.
#[tactic(auto, unfolding(crate::specs::Computing::parts_words))]
pub fn effects()
    ensures none { cancel (threads ((1, in_mode 1 (mode false true false)) ∷ []) 2) (pos 3) true
        ≡ record { reply = reply.Esrch; threads = threads ((1, in_mode 1 (mode false true false)) ∷ []) 2 } }
    ensures ended { cancel (threads ((2, ended_thread 2 (pos 7)) ∷ []) 3) (pos 2) false
        ≡ record { reply = reply.Effect Ended; threads = threads ((2, ended_thread 2 (pos 7)) ∷ []) 3 } }
    ensures merged { cancel (threads ((1, in_mode 1 (mode true true false)) ∷ []) 2) (pos 1) true
        ≡ record { reply = reply.Effect Merged; threads = threads ((1, in_mode 1 (mode true true false)) ∷ []) 2 } }
    ensures wakes { cancel (threads ((1, in_mode 1 (mode false true false)) ∷ []) 2) (pos 1) true
        ≡ record { reply = reply.Effect Wakes; threads = threads ((1, in_mode 1 (mode true true false)) ∷ []) 2 } }
    ensures not_at_a_point { cancel (threads ((1, in_mode 1 (mode false true true)) ∷ []) 2) (pos 1) false
        ≡ record { reply = reply.Effect Pending; threads = threads ((1, in_mode 1 (mode true true true)) ∷ []) 2 } }
    ensures general_off { cancel (threads ((1, in_mode 1 (mode false false true)) ∷ []) 2) (pos 1) true
        ≡ record { reply = reply.Effect Pending; threads = threads ((1, in_mode 1 (mode true false true)) ∷ []) 2 } }
    ensures delivered { deliver (threads ((1, in_mode 1 (mode true true true)) ∷ []) 2) (thread 1)
        ≡ threads ((1, in_mode 1 (mode false true true)) ∷ []) 2 }
{}

/// The rows whose waits are points.
#[tactic(auto, unfolding(crate::specs::Computing::parts_words))]
pub fn waits_at_points()
    ensures cond { waits_at_point (rows 1 ((1, standing_in (row.Cond (name 20)) 116 0) ∷ [])) (thread 1) ≡ true }
    ensures join { waits_at_point (rows 1 ((1, standing_in (row.Join (thread 2)) 116 0) ∷ [])) (thread 1) ≡ true }
    ensures time { waits_at_point (rows 1 ((1, standing_in row.Time 116 0) ∷ [])) (thread 1) ≡ true }
    ensures reader { waits_at_point (rows 1 ((1, standing_in (row.Reader (name 40)) 116 0) ∷ [])) (thread 1) ≡ true }
    ensures writer { waits_at_point (rows 1 ((1, standing_in (row.Writer (name 40)) 116 0) ∷ [])) (thread 1) ≡ true }
    ensures mutex { waits_at_point (rows 1 ((1, standing_in (row.Mutex (name 10)) 116 0) ∷ [])) (thread 1) ≡ false }
    ensures global { waits_at_point (rows 1 ((1, standing_in row.Global 116 0) ∷ [])) (thread 1) ≡ false }
    ensures once { waits_at_point (rows 1 ((1, standing_in (row.Once (name 50)) 116 0) ∷ [])) (thread 1) ≡ false }
    ensures ready { waits_at_point (rows 1 ((1, standing_in row.Ready 116 0) ∷ [])) (thread 1) ≡ false }
    ensures runs { waits_at_point (rows 1 ((1, running_at 0 116 8) ∷ [])) (thread 1) ≡ false }
{}

/// A thread that a cancel wakes is ready, but out of a condition it gets its mutex first or waits for it.
#[tactic(auto, unfolding(crate::specs::Computing::parts_words))]
pub fn cancelled_waits()
    ensures cond_free { cancel_wait (λ _. 116) (conds ((2, Cond (name 20) (name 10) None) ∷ [])) no_pipes
        (locks ((10, free Fast) ∷ []))
        (rows 4 ((1, running_at 0 116 8) ∷ (2, standing_in (row.Cond (name 20)) 116 3) ∷ [])) (thread 2)
        ≡ record {
          conds = conds [];
          pipes = no_pipes;
          locks = locks ((10, held Fast 2 1) ∷ []);
          rows = rows 5 ((1, running_at 0 116 8) ∷ (2, standing_in row.Ready 116 4) ∷ []);
          gifts = (thread 2, name 10) ∷ [];
        } }
    ensures cond_held { cancel_wait (λ _. 116) (conds ((2, Cond (name 20) (name 10) (Some (pos 9))) ∷ [])) no_pipes
        (locks ((10, held Fast 1 1) ∷ []))
        (rows 4 ((1, running_at 0 116 8) ∷ (2, standing_in (row.Cond (name 20)) 116 3) ∷ [])) (thread 2)
        ≡ record {
          conds = conds [];
          pipes = no_pipes;
          locks = locks ((10, held Fast 1 1) ∷ []);
          rows = rows 5 ((1, running_at 0 116 8) ∷ (2, standing_in (row.Mutex (name 10)) 116 4) ∷ []);
          gifts = [];
        } }
    ensures delay { cancel_wait (λ _. 116) (conds ((2, Delay (pos 9)) ∷ [])) no_pipes no_locks
        (rows 4 ((2, standing_in row.Time 116 3) ∷ [])) (thread 2)
        ≡ record {
          conds = conds [];
          pipes = no_pipes;
          locks = no_locks;
          rows = rows 5 ((2, standing_in row.Ready 116 4) ∷ []);
          gifts = [];
        } }
    ensures join { cancel_wait (λ _. 116) no_conds no_pipes no_locks
        (rows 4 ((2, standing_in (row.Join (thread 1)) 116 3) ∷ [])) (thread 2)
        ≡ record {
          conds = no_conds;
          pipes = no_pipes;
          locks = no_locks;
          rows = rows 5 ((2, standing_in row.Ready 116 4) ∷ []);
          gifts = [];
        } }
    ensures reader { cancel_wait (λ _. 116) no_conds (pipes 4 true [] none) no_locks
        (rows 4 ((2, standing_in (row.Reader (name 40)) 116 3) ∷ [])) (thread 2)
        ≡ record {
          conds = no_conds;
          pipes = pipes 4 true [] none;
          locks = no_locks;
          rows = rows 5 ((2, standing_in row.Ready 116 4) ∷ []);
          gifts = [];
        } }
    ensures writer { cancel_wait (λ _. 116) no_conds
        (pipes 1 true (pos 3 ∷ []) ((2, record { pipe = name 40; item = pos 5 }) ∷ [])) no_locks
        (rows 4 ((2, standing_in (row.Writer (name 40)) 116 3) ∷ [])) (thread 2)
        ≡ record {
          conds = no_conds;
          pipes = pipes 1 true (pos 3 ∷ []) none;
          locks = no_locks;
          rows = rows 5 ((2, standing_in row.Ready 116 4) ∷ []);
          gifts = [];
        } }
{}
