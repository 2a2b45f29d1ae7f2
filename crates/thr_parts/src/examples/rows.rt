//! Threads in rows and on processors.

ghost use Rattle.std.specs.Prelude.{◌≡◌, ◌∷◌, [], Some, None, true, false};
ghost use Rattle.thr_values.specs.Ranks.{rank_of};
ghost use Rattle.thr_values.specs.declared.scheduling.Policy.TheVariants.{Fifo, Rr, Fg, Bg};
ghost use Rattle.thr_parts.specs.declared.row.RowId.TheVariants.{Ready, Mutex, Global, Cond};
ghost use Rattle.thr_parts.specs.Tables.{IsCanonical};
ghost use Rattle.thr_parts.specs.Rows.{Rows, thread, no_rows, best, best_first, before, row_of};
ghost use Rattle.thr_parts.specs.Moves.{put_in_row, take_out, leave, block_in, set_rank, free_row};
ghost use Rattle.thr_parts.specs.Dispatch.{running, some_can_run, dispatch, keeps};
ghost use Rattle.thr_parts.specs.Samples.{alone, name, rows, running_at, standing_in};

/// Greater rank comes first, and among equals the lesser arrival.
#[tactic(auto, unfolding(crate::specs::Computing::parts_words))]
pub fn the_best_of_a_row()
    ensures best { best
        (rows 10
        ((1, standing_in Ready 116 5) ∷ (2, standing_in Ready 116 3) ∷ (3, standing_in Ready 120 9)
        ∷ (4, standing_in (Mutex (name 10)) 231 1) ∷ [])) Ready
        ≡ Some (thread 3) }
    ensures all { best_first
        (rows 10
        ((1, standing_in Ready 116 5) ∷ (2, standing_in Ready 116 3) ∷ (3, standing_in Ready 120 9)
        ∷ (4, standing_in (Mutex (name 10)) 231 1) ∷ [])) Ready
        ≡ thread 3 ∷ thread 2 ∷ thread 1 ∷ [] }
    ensures other { best
        (rows 10 ((1, standing_in (Mutex (name 11)) 116 5) ∷ (4, standing_in (Mutex (name 10)) 100 1) ∷ []))
        (Mutex (name 10))
        ≡ Some (thread 4) }
    ensures empty { best (rows 10 ((1, running_at 0 116 8) ∷ (2, standing_in Ready 116 3) ∷ [])) Global ≡ None }
    ensures rank_first { before (rows 10 ((1, standing_in Ready 116 5) ∷ (3, standing_in (Cond (name 20)) 120 9) ∷ []))
        (thread 3) (thread 1)
        ≡ true }
    ensures arrival_next { before
        (rows 10 ((1, standing_in Ready 116 5) ∷ (3, standing_in (Cond (name 20)) 116 9) ∷ [])) (thread 3) (thread 1)
        ≡ false }
    ensures itself { before (rows 10 ((1, standing_in Ready 116 5) ∷ [])) (thread 1) (thread 1) ≡ false }
{}

/// A thread that begins to wait takes the next arrival, and a change of its rank leaves it.
#[tactic(auto, unfolding(crate::specs::Computing::parts_words))]
pub fn arrivals()
    ensures put { put_in_row (put_in_row no_rows Ready (thread 2) 116) Global (thread 1) 50
        ≡ rows 2 ((1, standing_in Global 50 1) ∷ (2, standing_in Ready 116 0) ∷ []) }
    ensures blocks { block_in (rows 7 ((1, running_at 0 116 5) ∷ [])) Global (thread 1) 116
        ≡ rows 8 ((1, standing_in Global 116 7) ∷ []) }
    ensures yields { block_in (rows 7 ((1, running_at 0 116 5) ∷ [])) Ready (thread 1) 116
        ≡ rows 8 ((1, standing_in Ready 116 7) ∷ []) }
    ensures out { take_out (rows 2 ((1, standing_in Global 50 1) ∷ (2, standing_in Ready 116 0) ∷ [])) (thread 1)
        ≡ record { rows = rows 2 ((2, standing_in Ready 116 0) ∷ []); stood = true } }
    ensures runs { take_out (rows 2 ((1, running_at 0 50 1) ∷ [])) (thread 1)
        ≡ record { rows = rows 2 ((1, running_at 0 50 1) ∷ []); stood = false } }
    ensures nowhere { take_out (rows 2 ((1, running_at 0 50 1) ∷ [])) (thread 2)
        ≡ record { rows = rows 2 ((1, running_at 0 50 1) ∷ []); stood = false } }
    ensures leaves { leave (rows 2 ((1, running_at 0 50 1) ∷ [])) (thread 1) ≡ rows 2 [] }
    ensures stays { leave (rows 2 ((1, standing_in Ready 50 1) ∷ [])) (thread 1)
        ≡ rows 2 ((1, standing_in Ready 50 1) ∷ []) }
    ensures rank { set_rank (rows 2 ((1, standing_in Ready 50 1) ∷ [])) (thread 1) 231
        ≡ rows 2 ((1, standing_in Ready 231 1) ∷ []) }
    ensures rank_runs { set_rank (rows 2 ((1, running_at 1 50 4) ∷ [])) (thread 1) 231
        ≡ rows 2 ((1, running_at 1 231 4) ∷ []) }
    ensures row { row_of (rows 2 ((1, standing_in Ready 50 1) ∷ (2, running_at 0 50 8) ∷ [])) (thread 1) ≡ Some Ready }
    ensures no_row { row_of (rows 2 ((1, standing_in Ready 50 1) ∷ (2, running_at 0 50 8) ∷ [])) (thread 2) ≡ None }
    ensures freed { free_row (λ _. 116)
        (rows 6
        ((1, standing_in Global 116 4) ∷ (2, standing_in Global 116 3) ∷ (3, standing_in Ready 116 2)
        ∷ (4, standing_in Global 120 5) ∷ [])) Global
        ≡ record {
          rows = rows 9
              ((1, standing_in Ready 116 8) ∷ (2, standing_in Ready 116 7) ∷ (3, standing_in Ready 116 2)
              ∷ (4, standing_in Ready 116 6) ∷ []);
          woken = thread 4 ∷ thread 2 ∷ thread 1 ∷ [];
        } }
{}

/// Whether a thread is ready or runs.
#[tactic(auto, unfolding(crate::specs::Computing::parts_words))]
pub fn threads_that_can_run()
    ensures runs { some_can_run (rows 1 ((1, standing_in Global 50 0) ∷ (2, running_at 0 50 8) ∷ [])) ≡ true }
    ensures ready { some_can_run (rows 1 ((1, standing_in Global 50 0) ∷ (2, standing_in Ready 50 1) ∷ [])) ≡ true }
    ensures none { some_can_run (rows 1 ((1, standing_in Global 50 0) ∷ [])) ≡ false }
{}

/// A processor without a thread takes the best ready one with eight turns.
#[tactic(auto, unfolding(crate::specs::Computing::parts_words))]
pub fn dispatches()
    ensures takes { dispatch
        (rows 2 ((1, running_at 0 116 3) ∷ (2, standing_in Ready 116 0) ∷ (3, standing_in Ready 116 1) ∷ [])) 1
        ≡ record {
          rows = rows 2 ((1, running_at 0 116 3) ∷ (2, running_at 1 116 8) ∷ (3, standing_in Ready 116 1) ∷ []);
          taken = Some (thread 2);
        } }
    ensures busy { dispatch (rows 2 ((1, running_at 0 116 3) ∷ (2, standing_in Ready 116 0) ∷ [])) 0
        ≡ record { rows = rows 2 ((1, running_at 0 116 3) ∷ (2, standing_in Ready 116 0) ∷ []); taken = None } }
    ensures nobody { dispatch (rows 2 ((1, running_at 0 116 3) ∷ (2, standing_in Global 116 0) ∷ [])) 1
        ≡ record { rows = rows 2 ((1, running_at 0 116 3) ∷ (2, standing_in Global 116 0) ∷ []); taken = None } }
    ensures runs { running (rows 2 ((1, running_at 0 116 3) ∷ (2, running_at 4 116 8) ∷ [])) 4 ≡ Some (thread 2) }
    ensures idle { running (rows 2 ((1, running_at 0 116 3) ∷ (2, standing_in Ready 116 8) ∷ [])) 4 ≡ None }
{}

/// A turn of a thread under SCHED_RR, SCHED_FG_NP or SCHED_BG_NP takes one turn of its slice.
#[tactic(auto, unfolding(crate::specs::Computing::parts_words))]
pub fn slices()
    ensures one_less { keeps (rows 2 ((1, running_at 0 116 8) ∷ [])) (thread 1) false
        ≡ record { rows = rows 2 ((1, running_at 0 116 7) ∷ []); stays = true } }
    ensures equal_waits { keeps (rows 2 ((1, running_at 0 116 2) ∷ (2, standing_in Ready 116 0) ∷ [])) (thread 1) false
        ≡ record { rows = rows 2 ((1, running_at 0 116 1) ∷ (2, standing_in Ready 116 0) ∷ []); stays = true } }
    ensures spent { keeps (rows 2 ((1, running_at 0 116 1) ∷ (2, standing_in Ready 116 0) ∷ [])) (thread 1) false
        ≡ record { rows = rows 3 ((1, standing_in Ready 116 2) ∷ (2, standing_in Ready 116 0) ∷ []); stays = false } }
    ensures spent_alone { keeps (rows 2 ((1, running_at 0 116 1) ∷ (2, standing_in Global 116 0) ∷ [])) (thread 1) false
        ≡ record { rows = rows 2 ((1, running_at 0 116 8) ∷ (2, standing_in Global 116 0) ∷ []); stays = true } }
    ensures spent_above { keeps (rows 2 ((1, running_at 0 116 1) ∷ (2, standing_in Ready 115 0) ∷ [])) (thread 1) false
        ≡ record { rows = rows 2 ((1, running_at 0 116 8) ∷ (2, standing_in Ready 115 0) ∷ []); stays = true } }
    ensures outranked { keeps
        (rows 2 ((1, running_at 0 (rank_of Bg 31) 8) ∷ (2, standing_in Ready (rank_of Fg 0) 0) ∷ [])) (thread 1) false
        ≡ record { rows = rows 3 ((1, standing_in Ready 31 2) ∷ (2, standing_in Ready 100 0) ∷ []); stays = false } }
    ensures outranked_last { keeps
        (rows 2 ((1, running_at 0 (rank_of Fg 31) 1) ∷ (2, standing_in Ready (rank_of Rr 0) 0) ∷ [])) (thread 1) false
        ≡ record { rows = rows 3 ((1, standing_in Ready 131 2) ∷ (2, standing_in Ready 200 0) ∷ []); stays = false } }
{}

/// A thread under SCHED_FIFO loses no turn, and only one of greater rank takes its processor.
#[tactic(auto, unfolding(crate::specs::Computing::parts_words))]
pub fn fifo_threads_keep_their_processors()
    ensures keeps { keeps
        (rows 2 ((1, running_at 0 (rank_of Fifo 16) 1) ∷ (2, standing_in Ready (rank_of Rr 16) 0) ∷ [])) (thread 1) true
        ≡ record { rows = rows 2 ((1, running_at 0 216 1) ∷ (2, standing_in Ready 216 0) ∷ []); stays = true } }
    ensures gives { keeps
        (rows 2 ((1, running_at 0 (rank_of Fifo 16) 8) ∷ (2, standing_in Ready (rank_of Rr 17) 0) ∷ [])) (thread 1) true
        ≡ record { rows = rows 3 ((1, standing_in Ready 216 2) ∷ (2, standing_in Ready 217 0) ∷ []); stays = false } }
{}
