//! Mutexes, their attribute cells and the global lock.

ghost use Rattle.std.specs.Prelude.{◌≡◌, ◌∷◌, [], Some, None, true, false, pos};
ghost use Rattle.thr_values.specs.declared.reply.Kind.TheVariants.{Fast, Recursive, Nonrecursive};
ghost use Rattle.thr_values.specs.declared.reply.Reply.TheVariants as reply;
ghost use Rattle.thr_parts.specs.declared.row.RowId.TheVariants.{Ready, Mutex, Global};
ghost use Rattle.thr_parts.specs.Rows.{thread, no_rows};
ghost use Rattle.thr_parts.specs.Moves.{make_ready};
ghost use Rattle.thr_parts.specs.Dispatch.{keeps};
ghost use Rattle.thr_parts.specs.Mutexes.{no_locks, mutexattr_create, mutexattr_delete, setkind, init, destroy, owner};
ghost use Rattle.thr_parts.specs.Locking.{lock, trylock, unlock, regain};
ghost use Rattle.thr_parts.specs.Samples.{alone, name, rows, running_at, standing_in, free, held, locks, kinds, global};

/// Attribute cells of mutexes are created fast.
#[tactic(auto, unfolding(crate::specs::Computing::parts_words))]
pub fn attribute_cells()
    ensures create { mutexattr_create no_locks (name 35)
        ≡ record { reply = reply.Done; locks = kinds ((35, Fast) ∷ []) } }
    ensures create_made { mutexattr_create (kinds ((35, Recursive) ∷ [])) (name 35)
        ≡ record { reply = reply.Ebusy; locks = kinds ((35, Recursive) ∷ []) } }
    ensures kind { setkind (kinds ((35, Fast) ∷ [])) (name 35) Nonrecursive
        ≡ record { reply = reply.Done; locks = kinds ((35, Nonrecursive) ∷ []) } }
    ensures kind_unmade { setkind (kinds ((35, Fast) ∷ [])) (name 36) Nonrecursive
        ≡ record { reply = reply.Einval; locks = kinds ((35, Fast) ∷ []) } }
    ensures delete { mutexattr_delete (kinds ((35, Fast) ∷ [])) (name 35)
        ≡ record { reply = reply.Done; locks = no_locks } }
    ensures delete_unmade { mutexattr_delete (kinds ((35, Fast) ∷ [])) (name 36)
        ≡ record { reply = reply.Einval; locks = kinds ((35, Fast) ∷ []) } }
{}

/// A mutex is made free, of its cell's kind. A cell that isn't made comes before a mutex that is.
#[tactic(auto, unfolding(crate::specs::Computing::parts_words))]
pub fn makings()
    ensures default { init no_locks (name 10) None
        ≡ record { reply = reply.Done; locks = locks ((10, free Fast) ∷ []) } }
    ensures kind { (init (kinds ((35, Recursive) ∷ [])) (name 10) (Some (name 35))).locks.mutexes
        ≡ (10, free Recursive) ∷ [] }
    ensures made { init (locks ((10, held Fast 1 1) ∷ [])) (name 10) None
        ≡ record { reply = reply.Ebusy; locks = locks ((10, held Fast 1 1) ∷ []) } }
    ensures no_cell { init no_locks (name 10) (Some (name 35)) ≡ record { reply = reply.Einval; locks = no_locks } }
    ensures no_cell_made { init (locks ((10, held Fast 1 1) ∷ [])) (name 10) (Some (name 35))
        ≡ record { reply = reply.Einval; locks = locks ((10, held Fast 1 1) ∷ []) } }
    ensures destroyed { destroy (locks ((10, free Fast) ∷ [])) no_rows (name 10) false
        ≡ record { reply = reply.Done; locks = no_locks } }
    ensures destroyed_unmade { destroy no_locks no_rows (name 10) false
        ≡ record { reply = reply.Einval; locks = no_locks } }
    ensures owned { destroy (locks ((10, held Fast 1 1) ∷ [])) no_rows (name 10) false
        ≡ record { reply = reply.Ebusy; locks = locks ((10, held Fast 1 1) ∷ []) } }
    ensures waited_for { (destroy (locks ((10, free Fast) ∷ []))
        (rows 1 ((2, standing_in (Mutex (name 10)) 116 0) ∷ [])) (name 10) false).reply
        ≡ reply.Ebusy }
    ensures waits_with { destroy (locks ((10, free Fast) ∷ [])) no_rows (name 10) true
        ≡ record { reply = reply.Ebusy; locks = locks ((10, free Fast) ∷ []) } }
{}

/// A lock of what is free, of one's own by kind, and of another's.
#[tactic(auto, unfolding(crate::specs::Computing::parts_words))]
pub fn locked_mutexes()
    ensures unmade { lock no_locks alone (Some (name 10)) (thread 1) 116
        ≡ record { reply = reply.Einval; locks = no_locks; rows = alone } }
    ensures free { lock (locks ((10, free Nonrecursive) ∷ [])) alone (Some (name 10)) (thread 1) 116
        ≡ record { reply = reply.Done; locks = locks ((10, held Nonrecursive 1 1) ∷ []); rows = alone } }
    ensures fast { lock (locks ((10, held Fast 1 1) ∷ [])) alone (Some (name 10)) (thread 1) 116
        ≡ record {
          reply = reply.Blocks;
          locks = locks ((10, held Fast 1 1) ∷ []);
          rows = rows 4 ((1, standing_in (Mutex (name 10)) 116 3) ∷ []);
        } }
    ensures nonrecursive { lock (locks ((10, held Nonrecursive 1 1) ∷ [])) alone (Some (name 10)) (thread 1) 116
        ≡ record { reply = reply.Edeadlk; locks = locks ((10, held Nonrecursive 1 1) ∷ []); rows = alone } }
    ensures recursive { lock (locks ((10, held Recursive 1 1) ∷ [])) alone (Some (name 10)) (thread 1) 116
        ≡ record { reply = reply.Done; locks = locks ((10, held Recursive 1 2) ∷ []); rows = alone } }
    ensures anothers { lock (locks ((10, held Recursive 2 1) ∷ [])) (rows 3 ((1, running_at 0 120 8) ∷ []))
        (Some (name 10)) (thread 1) 120
        ≡ record {
          reply = reply.Blocks;
          locks = locks ((10, held Recursive 2 1) ∷ []);
          rows = rows 4 ((1, standing_in (Mutex (name 10)) 120 3) ∷ []);
        } }
    ensures owner { owner (locks ((10, held Recursive 2 5) ∷ [])) (Some (name 10))
        ≡ Some (record { owner = thread 2; depth = 5 }) }
    ensures no_owner { owner (locks ((10, free Recursive) ∷ [])) (Some (name 10)) ≡ None }
{}

/// `trylock` gives 1 where a lock replies `ok`, with its effect, and else 0.
#[tactic(auto, unfolding(crate::specs::Computing::parts_words))]
pub fn tried_locks()
    ensures unmade { trylock no_locks (name 10) (thread 1) ≡ record { reply = reply.Einval; locks = no_locks } }
    ensures free { trylock (locks ((10, free Fast) ∷ [])) (name 10) (thread 1)
        ≡ record { reply = reply.Value (pos 1); locks = locks ((10, held Fast 1 1) ∷ []) } }
    ensures fast { trylock (locks ((10, held Fast 1 1) ∷ [])) (name 10) (thread 1)
        ≡ record { reply = reply.Value (pos 0); locks = locks ((10, held Fast 1 1) ∷ []) } }
    ensures nonrecursive { trylock (locks ((10, held Nonrecursive 1 1) ∷ [])) (name 10) (thread 1)
        ≡ record { reply = reply.Value (pos 0); locks = locks ((10, held Nonrecursive 1 1) ∷ []) } }
    ensures recursive { trylock (locks ((10, held Recursive 1 1) ∷ [])) (name 10) (thread 1)
        ≡ record { reply = reply.Value (pos 1); locks = locks ((10, held Recursive 1 2) ∷ []) } }
    ensures anothers { trylock (locks ((10, held Recursive 2 1) ∷ [])) (name 10) (thread 1)
        ≡ record { reply = reply.Value (pos 0); locks = locks ((10, held Recursive 2 1) ∷ []) } }
{}

/// An unlock by the owner takes one from the depth; at 0 the mutex goes to the best that waits for it, or is free.
#[tactic(auto, unfolding(crate::specs::Computing::parts_words))]
pub fn unlocked_mutexes()
    ensures unmade { unlock no_locks no_rows (Some (name 10)) (thread 1)
        ≡ record { reply = reply.Einval; locks = no_locks; rows = no_rows; given = None } }
    ensures free { unlock (locks ((10, free Fast) ∷ [])) no_rows (Some (name 10)) (thread 1)
        ≡ record { reply = reply.Eperm; locks = locks ((10, free Fast) ∷ []); rows = no_rows; given = None } }
    ensures anothers { unlock (locks ((10, held Fast 2 1) ∷ []))
        (rows 1 ((3, standing_in (Mutex (name 10)) 116 0) ∷ [])) (Some (name 10)) (thread 1)
        ≡ record {
          reply = reply.Eperm;
          locks = locks ((10, held Fast 2 1) ∷ []);
          rows = rows 1 ((3, standing_in (Mutex (name 10)) 116 0) ∷ []);
          given = None;
        } }
    ensures one_less { unlock (locks ((10, held Recursive 1 3) ∷ []))
        (rows 1 ((3, standing_in (Mutex (name 10)) 116 0) ∷ [])) (Some (name 10)) (thread 1)
        ≡ record {
          reply = reply.Done;
          locks = locks ((10, held Recursive 1 2) ∷ []);
          rows = rows 1 ((3, standing_in (Mutex (name 10)) 116 0) ∷ []);
          given = None;
        } }
    ensures becomes_free { unlock (locks ((10, held Fast 1 1) ∷ []))
        (rows 1 ((3, standing_in (Mutex (name 11)) 116 0) ∷ [])) (Some (name 10)) (thread 1)
        ≡ record {
          reply = reply.Done;
          locks = locks ((10, free Fast) ∷ []);
          rows = rows 1 ((3, standing_in (Mutex (name 11)) 116 0) ∷ []);
          given = None;
        } }
    ensures handed_over { unlock (locks ((10, held Recursive 1 1) ∷ []))
        (rows 3 ((3, standing_in (Mutex (name 10)) 116 0) ∷ (4, standing_in (Mutex (name 10)) 120 2) ∷ []))
        (Some (name 10)) (thread 1)
        ≡ record {
          reply = reply.Done;
          locks = locks ((10, held Recursive 4 1) ∷ []);
          rows = rows 3 ((3, standing_in (Mutex (name 10)) 116 0) ∷ []);
          given = Some (thread 4);
        } }
{}

/// A thread that was handed a mutex becomes ready before its giver, which gives its processor up.
#[tactic(auto, unfolding(crate::specs::Computing::parts_words))]
pub fn arrivals_at_a_hand_over()
    ensures { (keeps
        (make_ready (λ _. 116)
        (unlock (locks ((10, held Fast 1 1) ∷ []))
        (rows 3 ((1, running_at 0 116 1) ∷ (2, standing_in (Mutex (name 10)) 116 0) ∷ []))
        (Some (name 10)) (thread 1)).rows (thread 2)) (thread 1) false).rows
        ≡ rows 5 ((1, standing_in Ready 116 4) ∷ (2, standing_in Ready 116 3) ∷ []) }
{}

/// The global lock is as a recursive mutex that is always made.
#[tactic(auto, unfolding(crate::specs::Computing::parts_words))]
pub fn the_global_lock()
    ensures first { lock no_locks no_rows None (thread 1) 116
        ≡ record { reply = reply.Done; locks = global 1 1; rows = no_rows } }
    ensures again { lock (global 1 1) no_rows None (thread 1) 116
        ≡ record { reply = reply.Done; locks = global 1 2; rows = no_rows } }
    ensures anothers { lock (global 2 1) alone None (thread 1) 116
        ≡ record { reply = reply.Blocks; locks = global 2 1; rows = rows 4 ((1, standing_in Global 116 3) ∷ []) } }
    ensures one_less { unlock (global 1 2) no_rows None (thread 1)
        ≡ record { reply = reply.Done; locks = global 1 1; rows = no_rows; given = None } }
    ensures becomes_free { unlock (global 1 1) no_rows None (thread 1)
        ≡ record { reply = reply.Done; locks = no_locks; rows = no_rows; given = None } }
    ensures free { unlock no_locks no_rows None (thread 1)
        ≡ record { reply = reply.Eperm; locks = no_locks; rows = no_rows; given = None } }
    ensures handed_over { unlock (global 1 1) (rows 1 ((3, standing_in Global 116 0) ∷ [])) None (thread 1)
        ≡ record { reply = reply.Done; locks = global 3 1; rows = rows 1 []; given = Some (thread 3) } }
{}
