//! Times, delays and waits whose time has come.

ghost use Rattle.std.specs.Prelude.{◌≡◌, ◌∷◌, [], Some, None, true, false, pos, negsuc};
ghost use Rattle.thr_values.specs.declared.reply.Kind.TheVariants.{Fast};
ghost use Rattle.thr_values.specs.declared.reply.Reply.TheVariants as reply;
ghost use Rattle.thr_parts.specs.declared.row.RowId.TheVariants as row;
ghost use Rattle.thr_parts.specs.declared.wait.Wait.TheVariants.{Cond, Delay};
ghost use Rattle.thr_parts.specs.Rows.{thread};
ghost use Rattle.thr_parts.specs.Times.{expiration};
ghost use Rattle.thr_parts.specs.Conditions.{delay};
ghost use Rattle.thr_parts.specs.Expiry.{earliest, expire, expire_all};
ghost use Rattle.thr_parts.specs.Samples.{alone, name, rows, running_at, standing_in, free, held, locks, conds};

/// Delays and expirations, up to the greatest number.
#[tactic(auto, unfolding(crate::specs::Computing::parts_words))]
pub fn intervals()
    ensures waits { delay (conds []) alone (pos 10) (pos 5) (thread 1) 116
        ≡ record {
          reply = reply.Blocks;
          conds = conds ((1, Delay (pos 15)) ∷ []);
          rows = rows 4 ((1, standing_in row.Time 116 3) ∷ []);
        } }
    ensures zero { delay (conds []) alone (pos 0) (pos 5) (thread 1) 116
        ≡ record { reply = reply.Done; conds = conds []; rows = alone } }
    ensures negative { delay (conds []) alone (negsuc 0) (pos 5) (thread 1) 116
        ≡ record { reply = reply.Einval; conds = conds []; rows = alone } }
    ensures too_late { (delay (conds []) alone (pos 9223372036854775807) (pos 1) (thread 1) 116).reply ≡ reply.Einval }
    ensures latest { (delay (conds []) alone (pos 9223372036854775806) (pos 1) (thread 1) 116).reply ≡ reply.Blocks }
    ensures expires { expiration (pos 10) (pos 5) ≡ reply.Value (pos 15) }
    ensures expires_now { expiration (pos 0) (pos 5) ≡ reply.Value (pos 5) }
    ensures expires_negative { expiration (negsuc 0) (pos 5) ≡ reply.Einval }
    ensures expires_too_late { expiration (pos 9223372036854775807) (pos 1) ≡ reply.Einval }
    ensures expires_latest { expiration (pos 9223372036854775807) (pos 0) ≡ reply.Value (pos 9223372036854775807) }
{}

/// The earliest time, and the best thread whose time has come.
#[tactic(auto, unfolding(crate::specs::Computing::parts_words))]
pub fn times()
    ensures earliest { earliest
        (conds
        ((1, Delay (pos 15)) ∷ (2, Cond (name 20) (name 10) (Some (pos 12))) ∷ (3, Cond (name 20) (name 10) None)
        ∷ []))
        ≡ Some (pos 12) }
    ensures no_time { earliest (conds ((3, Cond (name 20) (name 10) None) ∷ [])) ≡ None }
    ensures best { expire
        (conds ((1, Delay (pos 12)) ∷ (2, Cond (name 20) (name 10) (Some (pos 12))) ∷ (3, Delay (pos 13)) ∷ []))
        (rows 3
        ((1, standing_in row.Time 116 1) ∷ (2, standing_in (row.Cond (name 20)) 116 0)
        ∷ (3, standing_in row.Time 231 2) ∷ [])) (pos 12)
        ≡ record {
          conds = conds ((1, Delay (pos 12)) ∷ (3, Delay (pos 13)) ∷ []);
          rows = rows 3 ((1, standing_in row.Time 116 1) ∷ (3, standing_in row.Time 231 2) ∷ []);
          who = Some (thread 2, Some (name 10));
        } }
    ensures delay { (expire (conds ((1, Delay (pos 12)) ∷ [])) (rows 3 ((1, standing_in row.Time 116 1) ∷ []))
        (pos 12)).who
        ≡ Some (thread 1, None) }
    ensures nobody { expire (conds ((3, Delay (pos 13)) ∷ [])) (rows 3 ((3, standing_in row.Time 231 2) ∷ [])) (pos 12)
        ≡ record {
          conds = conds ((3, Delay (pos 13)) ∷ []);
          rows = rows 3 ((3, standing_in row.Time 231 2) ∷ []);
          who = None;
        } }
{}

/// Equal times: a delay, and two timed waits with one mutex. The order is judged once, by rank and by the arrival of the wait.
#[tactic(auto, unfolding(crate::specs::Computing::parts_words))]
pub fn equal_times()
    ensures free { expire_all (λ _. 116)
        (conds
        ((2, Cond (name 20) (name 10) (Some (pos 20))) ∷ (3, Cond (name 21) (name 10) (Some (pos 20)))
        ∷ (4, Delay (pos 20)) ∷ (5, Delay (pos 21)) ∷ (6, Cond (name 20) (name 10) None) ∷ []))
        (locks ((10, free Fast) ∷ []))
        (rows 5
        ((2, standing_in (row.Cond (name 20)) 116 4) ∷ (3, standing_in (row.Cond (name 21)) 116 2)
        ∷ (4, standing_in row.Time 116 3) ∷ (5, standing_in row.Time 116 0)
        ∷ (6, standing_in (row.Cond (name 20)) 116 1) ∷ [])) (pos 20)
        ≡ record {
          conds = conds ((5, Delay (pos 21)) ∷ (6, Cond (name 20) (name 10) None) ∷ []);
          locks = locks ((10, held Fast 3 1) ∷ []);
          rows = rows 8
              ((2, standing_in (row.Mutex (name 10)) 116 7) ∷ (3, standing_in row.Ready 116 5)
              ∷ (4, standing_in row.Ready 116 6) ∷ (5, standing_in row.Time 116 0)
              ∷ (6, standing_in (row.Cond (name 20)) 116 1) ∷ []);
          woken = (thread 3, Some (name 10)) ∷ (thread 4, None) ∷ (thread 2, Some (name 10)) ∷ [];
          gifts = (thread 3, name 10) ∷ [];
        } }
    ensures nobody { expire_all (λ _. 116) (conds ((5, Delay (pos 21)) ∷ [])) (locks [])
        (rows 5 ((5, standing_in row.Time 116 0) ∷ [])) (pos 20)
        ≡ record {
          conds = conds ((5, Delay (pos 21)) ∷ []);
          locks = locks [];
          rows = rows 5 ((5, standing_in row.Time 116 0) ∷ []);
          woken = [];
          gifts = [];
        } }
{}
