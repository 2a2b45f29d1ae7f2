//! Conditions: waits that begin, and those that end by a signal or a broadcast.

ghost use Rattle.std.specs.Prelude.{◌≡◌, ◌∷◌, [], Some, None, true, false, pos, negsuc, ◌+◌};
ghost use Rattle.thr_values.specs.declared.reply.Effect.TheVariants.{Pending};
ghost use Rattle.thr_values.specs.declared.reply.Kind.TheVariants.{Fast, Recursive};
ghost use Rattle.thr_values.specs.declared.reply.Reply.TheVariants as reply;
ghost use Rattle.thr_parts.specs.declared.row.RowId.TheVariants as row;
ghost use Rattle.thr_parts.specs.declared.wait.Wait.TheVariants.{Cond, Delay};
ghost use Rattle.thr_parts.specs.Tables.{none};
ghost use Rattle.thr_parts.specs.Rows.{thread, no_rows};
ghost use Rattle.thr_parts.specs.Moves.{make_ready};
ghost use Rattle.thr_parts.specs.Cancels.{cancel, waits_at_point};
ghost use Rattle.thr_parts.specs.Locking.{regain};
ghost use Rattle.thr_parts.specs.Conditions.{no_conds, cond_init, cond_destroy, wait, timedwait, waits_with};
ghost use Rattle.thr_parts.specs.Waking.{signal, take_next, pull_out, broadcast};
ghost use Rattle.thr_parts.specs.Samples.{alone, name, rows, running_at, standing_in, threads, mode, in_mode, free, held, locks, conds, made};

/// Conditions are made once, and destroyed where nobody waits on them.
#[tactic(auto, unfolding(crate::specs::Computing::parts_words))]
pub fn makings()
    ensures init { cond_init no_conds (name 20) ≡ record { reply = reply.Done; conds = made (20 ∷ []) } }
    ensures init_made { cond_init (made (20 ∷ [])) (name 20) ≡ record { reply = reply.Ebusy; conds = made (20 ∷ []) } }
    ensures destroy { cond_destroy (conds []) (name 20) ≡ record { reply = reply.Done; conds = made (21 ∷ []) } }
    ensures destroy_unmade { cond_destroy (conds []) (name 22) ≡ record { reply = reply.Einval; conds = conds [] } }
    ensures destroy_waited_on { cond_destroy (conds ((2, Cond (name 20) (name 10) None) ∷ [])) (name 20)
        ≡ record { reply = reply.Ebusy; conds = conds ((2, Cond (name 20) (name 10) None) ∷ []) } }
    ensures destroy_other { (cond_destroy (conds ((2, Cond (name 20) (name 10) None) ∷ (3, Delay (pos 9)) ∷ []))
        (name 21)).reply
        ≡ reply.Done }
    ensures with_mutex { waits_with (conds ((1, Delay (pos 5)) ∷ (2, Cond (name 20) (name 10) None) ∷ [])) (name 10)
        ≡ true }
    ensures with_other { waits_with (conds ((1, Delay (pos 5)) ∷ (2, Cond (name 20) (name 10) None) ∷ [])) (name 20)
        ≡ false }
{}

/// The errors of a wait, from the left.
#[tactic(auto, unfolding(crate::specs::Computing::parts_words))]
pub fn refused_waits()
    ensures no_condition { wait no_conds (locks ((10, held Fast 1 1) ∷ [])) alone (name 20) (name 10) (thread 1) 116
        ≡ record {
          reply = reply.Einval;
          conds = no_conds;
          locks = locks ((10, held Fast 1 1) ∷ []);
          rows = alone;
          given = None;
        } }
    ensures no_mutex { (wait (conds []) (locks []) alone (name 20) (name 10) (thread 1) 116).reply ≡ reply.Einval }
    ensures free { (wait (conds []) (locks ((10, free Fast) ∷ [])) alone (name 20) (name 10) (thread 1) 116).reply
        ≡ reply.Eperm }
    ensures anothers { wait (conds ((3, Cond (name 20) (name 11) None) ∷ [])) (locks ((10, held Recursive 2 2) ∷ []))
        alone (name 20) (name 10) (thread 1) 116
        ≡ record {
          reply = reply.Eperm;
          conds = conds ((3, Cond (name 20) (name 11) None) ∷ []);
          locks = locks ((10, held Recursive 2 2) ∷ []);
          rows = alone;
          given = None;
        } }
    ensures twice_locked { (wait (conds []) (locks ((10, held Recursive 1 2) ∷ [])) alone (name 20) (name 10) (thread 1)
        116).reply
        ≡ reply.Einval }
    ensures another_mutex { wait (conds ((3, Cond (name 20) (name 11) None) ∷ [])) (locks ((10, held Fast 1 1) ∷ []))
        alone (name 20) (name 10) (thread 1) 116
        ≡ record {
          reply = reply.Einval;
          conds = conds ((3, Cond (name 20) (name 11) None) ∷ []);
          locks = locks ((10, held Fast 1 1) ∷ []);
          rows = alone;
          given = None;
        } }
    ensures past { timedwait (conds []) (locks ((10, held Fast 1 1) ∷ [])) alone (name 20) (name 10) (pos 7) (pos 7)
        (thread 1) 116
        ≡ record {
          reply = reply.Eagain;
          conds = conds [];
          locks = locks ((10, held Fast 1 1) ∷ []);
          rows = alone;
          given = None;
        } }
    ensures negative { (timedwait (conds []) (locks ((10, held Fast 1 1) ∷ [])) alone (name 20) (name 10) (negsuc 0)
        (pos 0) (thread 1) 116).reply
        ≡ reply.Eagain }
    ensures past_of_another { (timedwait (conds []) (locks ((10, held Fast 2 1) ∷ [])) alone (name 20) (name 10) (pos 7)
        (pos 7) (thread 1) 116).reply
        ≡ reply.Eperm }
    ensures past_unmade { (timedwait no_conds (locks ((10, held Fast 1 1) ∷ [])) alone (name 20) (name 10) (pos 7)
        (pos 7) (thread 1) 116).reply
        ≡ reply.Einval }
{}

/// A wait gives the mutex up. The caller's arrival comes before that of the thread which it is given to.
#[tactic(auto, unfolding(crate::specs::Computing::parts_words))]
pub fn begun_waits()
    ensures free { wait (conds ((3, Cond (name 20) (name 10) None) ∷ [])) (locks ((10, held Fast 1 1) ∷ []))
        (rows 3 ((1, running_at 0 116 8) ∷ (3, standing_in (row.Cond (name 20)) 116 2) ∷ [])) (name 20) (name 10)
        (thread 1) 116
        ≡ record {
          reply = reply.Blocks;
          conds = conds ((1, Cond (name 20) (name 10) None) ∷ (3, Cond (name 20) (name 10) None) ∷ []);
          locks = locks ((10, free Fast) ∷ []);
          rows = rows 4
              ((1, standing_in (row.Cond (name 20)) 116 3) ∷ (3, standing_in (row.Cond (name 20)) 116 2) ∷ []);
          given = None;
        } }
    ensures handed_over { timedwait (conds []) (locks ((10, held Recursive 1 1) ∷ []))
        (rows 3
        ((1, running_at 0 116 8) ∷ (2, standing_in (row.Mutex (name 10)) 100 1)
        ∷ (3, standing_in (row.Mutex (name 10)) 116 2) ∷ [])) (name 20) (name 10) (pos 8) (pos 7) (thread 1) 116
        ≡ record {
          reply = reply.Blocks;
          conds = conds ((1, Cond (name 20) (name 10) (Some (pos 8))) ∷ []);
          locks = locks ((10, held Recursive 3 1) ∷ []);
          rows = rows 4
              ((1, standing_in (row.Cond (name 20)) 116 3) ∷ (2, standing_in (row.Mutex (name 10)) 100 1) ∷ []);
          given = Some (thread 3);
        } }
{}

/// A thread that waits and gives its mutex up has its arrival before the one that is handed the mutex.
#[tactic(auto, unfolding(crate::specs::Computing::parts_words))]
pub fn arrivals_at_a_wait()
    ensures { make_ready (λ _. 116)
        (wait (conds []) (locks ((10, held Fast 1 1) ∷ []))
        (rows 3 ((1, running_at 0 116 1) ∷ (2, standing_in (row.Mutex (name 10)) 116 0) ∷ []))
        (name 20) (name 10) (thread 1) 116).rows (thread 2)
        ≡ rows 5 ((1, standing_in (row.Cond (name 20)) 116 3) ∷ (2, standing_in row.Ready 116 4) ∷ []) }
{}

/// A signal takes the best waiter out of the condition.
#[tactic(auto, unfolding(crate::specs::Computing::parts_words))]
pub fn signals()
    ensures unmade { signal no_conds (rows 3 ((2, standing_in row.Ready 116 1) ∷ [])) (name 20)
        ≡ record {
          reply = reply.Einval;
          conds = no_conds;
          rows = rows 3 ((2, standing_in row.Ready 116 1) ∷ []);
          waiter = None;
        } }
    ensures nobody { signal (conds ((2, Cond (name 21) (name 10) None) ∷ []))
        (rows 3 ((2, standing_in (row.Cond (name 21)) 116 1) ∷ [])) (name 20)
        ≡ record {
          reply = reply.Done;
          conds = conds ((2, Cond (name 21) (name 10) None) ∷ []);
          rows = rows 3 ((2, standing_in (row.Cond (name 21)) 116 1) ∷ []);
          waiter = None;
        } }
    ensures best { signal
        (conds ((2, Cond (name 20) (name 10) None) ∷ (3, Cond (name 20) (name 10) (Some (pos 9))) ∷ []))
        (rows 3 ((2, standing_in (row.Cond (name 20)) 116 1) ∷ (3, standing_in (row.Cond (name 20)) 120 2) ∷ []))
        (name 20)
        ≡ record {
          reply = reply.Done;
          conds = conds ((2, Cond (name 20) (name 10) None) ∷ []);
          rows = rows 3 ((2, standing_in (row.Cond (name 20)) 116 1) ∷ []);
          waiter = Some (thread 3, name 10);
        } }
    ensures next { take_next (conds ((2, Cond (name 20) (name 10) None) ∷ []))
        (rows 3 ((2, standing_in (row.Cond (name 20)) 116 1) ∷ [])) (name 20)
        ≡ record { conds = conds []; rows = rows 3 []; waiter = Some (thread 2, name 10) } }
    ensures no_next { take_next (conds []) (rows 3 ((2, standing_in row.Ready 116 1) ∷ [])) (name 20)
        ≡ record { conds = conds []; rows = rows 3 ((2, standing_in row.Ready 116 1) ∷ []); waiter = None } }
    ensures regains { regain (locks ((10, free Fast) ∷ [])) (rows 3 []) (name 10) (thread 2) 116
        ≡ record {
          locks = locks ((10, held Fast 2 1) ∷ []);
          rows = rows 4 ((2, standing_in row.Ready 116 3) ∷ []);
          gets = true;
        } }
    ensures waits_again { regain (locks ((10, held Fast 1 1) ∷ [])) (rows 3 []) (name 10) (thread 2) 116
        ≡ record {
          locks = locks ((10, held Fast 1 1) ∷ []);
          rows = rows 4 ((2, standing_in (row.Mutex (name 10)) 116 3) ∷ []);
          gets = false;
        } }
{}

/// A broadcast to three waiters of different rank. The best gets the mutex where it is free, and the others wait for it, each
/// with an arrival in the order in which they leave.
#[tactic(auto, unfolding(crate::specs::Computing::parts_words))]
pub fn broadcasts()
    ensures unmade { broadcast (λ _. 116) no_conds (locks ((10, free Fast) ∷ [])) no_rows (name 20)
        ≡ record {
          reply = reply.Einval;
          woken = record {
            conds = no_conds;
            locks = locks ((10, free Fast) ∷ []);
            rows = no_rows;
            woken = [];
            gifts = [];
          };
        } }
    ensures nobody { broadcast (λ _. 116) (conds []) (locks ((10, free Fast) ∷ [])) no_rows (name 20)
        ≡ record {
          reply = reply.Done;
          woken = record {
            conds = conds [];
            locks = locks ((10, free Fast) ∷ []);
            rows = no_rows;
            woken = [];
            gifts = [];
          };
        } }
    ensures free { broadcast (λ t. 100 + t.0)
        (conds
        ((2, Cond (name 20) (name 10) None) ∷ (3, Cond (name 20) (name 10) None)
        ∷ (4, Cond (name 20) (name 10) (Some (pos 9))) ∷ (5, Cond (name 21) (name 10) None) ∷ []))
        (locks ((10, free Fast) ∷ []))
        (rows 5
        ((1, running_at 0 101 8) ∷ (2, standing_in (row.Cond (name 20)) 102 1)
        ∷ (3, standing_in (row.Cond (name 20)) 103 2) ∷ (4, standing_in (row.Cond (name 20)) 104 3)
        ∷ (5, standing_in (row.Cond (name 21)) 105 4) ∷ [])) (name 20)
        ≡ record {
          reply = reply.Done;
          woken = record {
            conds = conds ((5, Cond (name 21) (name 10) None) ∷ []);
            locks = locks ((10, held Fast 4 1) ∷ []);
            rows = rows 8
                ((1, running_at 0 101 8) ∷ (2, standing_in (row.Mutex (name 10)) 102 7)
                ∷ (3, standing_in (row.Mutex (name 10)) 103 6) ∷ (4, standing_in row.Ready 104 5)
                ∷ (5, standing_in (row.Cond (name 21)) 105 4) ∷ []);
            woken = (thread 4, Some (name 10)) ∷ (thread 3, Some (name 10)) ∷ (thread 2, Some (name 10)) ∷ [];
            gifts = (thread 4, name 10) ∷ [];
          };
        } }
    ensures held { (broadcast (λ _. 116)
        (conds ((2, Cond (name 20) (name 10) None) ∷ (3, Cond (name 20) (name 10) None) ∷ []))
        (locks ((10, held Fast 1 1) ∷ []))
        (rows 5
        ((1, running_at 0 116 8) ∷ (2, standing_in (row.Cond (name 20)) 116 2)
        ∷ (3, standing_in (row.Cond (name 20)) 116 1) ∷ [])) (name 20)).woken
        ≡ record {
          conds = conds [];
          locks = locks ((10, held Fast 1 1) ∷ []);
          rows = rows 7
              ((1, running_at 0 116 8) ∷ (2, standing_in (row.Mutex (name 10)) 116 6)
              ∷ (3, standing_in (row.Mutex (name 10)) 116 5) ∷ []);
          woken = (thread 3, Some (name 10)) ∷ (thread 2, Some (name 10)) ∷ [];
          gifts = [];
        } }
{}

/// A cancel of a thread that was signalled and waits for its mutex is pending. A signal after a cancel finds nobody, or the
/// next waiter.
#[tactic(auto, unfolding(crate::specs::Computing::parts_words))]
pub fn signals_and_cancels()
    ensures waits_for_mutex { waits_at_point
        (regain (locks ((10, held Fast 1 1) ∷ []))
        (signal (conds ((2, Cond (name 20) (name 10) None) ∷ []))
        (rows 3 ((2, standing_in (row.Cond (name 20)) 116 1) ∷ [])) (name 20)).rows (name 10) (thread 2)
        116).rows (thread 2)
        ≡ false }
    ensures pending { (cancel (threads ((2, in_mode 2 (mode false true false)) ∷ []) 3) (pos 2) false).reply
        ≡ reply.Effect Pending }
    ensures pulled_out { pull_out (conds ((2, Cond (name 20) (name 10) None) ∷ []))
        (rows 3 ((2, standing_in (row.Cond (name 20)) 116 1) ∷ [])) (thread 2)
        ≡ record { conds = conds []; rows = rows 3 []; left = Some (Some (name 10)) } }
    ensures spent_on_nobody { (signal (conds []) (rows 4 ((2, standing_in (row.Mutex (name 10)) 116 3) ∷ []))
        (name 20)).waiter
        ≡ None }
    ensures delay { pull_out (conds ((2, Delay (pos 9)) ∷ [])) (rows 3 ((2, standing_in row.Time 116 1) ∷ []))
        (thread 2)
        ≡ record { conds = conds []; rows = rows 3 []; left = Some None } }
    ensures no_wait { pull_out (conds []) (rows 3 ((2, standing_in (row.Reader (name 40)) 116 1) ∷ [])) (thread 2)
        ≡ record { conds = conds []; rows = rows 3 ((2, standing_in (row.Reader (name 40)) 116 1) ∷ []); left = None } }
{}
