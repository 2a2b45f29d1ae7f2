//! The laws on the parts of the machine's state: each is a function that does nothing and whose contract is the law.

ghost use Rattle.std.specs.Prelude.{◌≡◌, ◌↔◌, ℕ, ℤ, ◌+◌, ◌<◌, ◌≤◌, Bool, true, false, nat_lt, ◌==◌, if◌then◌else◌, List, [], ◌∷◌, length, slice_set, Option, Some, None};
ghost use Rattle.thr_values.specs.declared.number.Tid.{Tid};
ghost use Rattle.thr_values.specs.declared.number.NameId.{NameId};
ghost use Rattle.thr_parts.specs.declared.row.RowId.{RowId};
ghost use Rattle.thr_parts.specs.declared.row.RowId.TheVariants as row;
ghost use Rattle.thr_parts.specs.declared.row.Seat.{Seat};
ghost use Rattle.thr_parts.specs.Tables.{Table, none, get, at, has, put, cut, present, IsCanonical};
ghost use Rattle.thr_parts.specs.Rows.{Rows, seat_of, row_of, is_same_row, before, best, best_first, best_of, number_in, is_among};
ghost use Rattle.thr_parts.specs.Moves.{put_in_row, take_out, leave, block_in, set_rank, make_ready, make_all_ready, free_row};
ghost use Rattle.thr_parts.specs.Dispatch.{running, some_can_run, dispatch, keeps, is_outranked, is_matched};
ghost use Rattle.thr_parts.specs.Mutexes.{Locks};
ghost use Rattle.thr_parts.specs.Locking.{lock, unlock, regain};
ghost use Rattle.thr_parts.specs.Conditions.{Conds, wait, timedwait, delay};
ghost use Rattle.thr_parts.specs.Waking.{wake_all, wake_then, pull_out};
ghost use Rattle.thr_parts.specs.Expiry.{due, due_first};
ghost use Rattle.thr_parts.specs.Keys.{Onces};
ghost use Rattle.thr_parts.specs.OnceBlocks.{enter, undone};
ghost use Rattle.thr_parts.specs.Pipes.{Pipes, read, write};
ghost use Rattle.thr_parts.specs.Closing.{close_out};
ghost use Rattle.thr_parts.specs.CancelledWaits.{cancel_wait};

/// What a table has at a number after a change.
#[tactic(auto, using(crate::proofs::TableLaws::at_none, crate::proofs::TableLaws::at_put, crate::proofs::TableLaws::at_cut))]
pub fn tables_have_what_was_put<A>()
    ensures none { (q : ℕ) (d : A) → at none q d ≡ d }
    ensures put { (m : Table A) (k q : ℕ) (v d : A) → at (put m k v) q d ≡ (if k == q then v else at m q d) }
    ensures cut { (m : Table A) (k q : ℕ) (d : A) → at (cut m k) q d ≡ (if k == q then d else at m q d) }
{}

/// The numbers of a table rise, and go on to rise after a change. Such a table is known by what it has at each number, and
/// one that is made of a list of items is changed as the list is.
#[tactic(auto, using(crate::proofs::TableLaws::canonical_none, crate::proofs::TableLaws::canonical_put, crate::proofs::TableLaws::canonical_cut, crate::proofs::TableLaws::canonical_present, crate::proofs::TableLaws::same_table, crate::proofs::TableLaws::put_cut, crate::proofs::TableLaws::put_present, crate::proofs::TableLaws::cut_present))]
pub fn tables_stay_canonical<A>()
    ensures none { IsCanonical (none {A = A}) }
    ensures put { (m : Table A) (k : ℕ) (v : A) → IsCanonical m → IsCanonical (put m k v) }
    ensures cut { (m : Table A) (k : ℕ) → IsCanonical m → IsCanonical (cut m k) }
    ensures present { (n : ℕ) (xs : List (Option A)) → IsCanonical (present n xs) }
    ensures same { (m n : Table A) → IsCanonical m → IsCanonical n → ((q : ℕ) → get m q ≡ get n q) → m ≡ n }
    ensures again { (m : Table A) (k : ℕ) (v : A) → IsCanonical m → put (cut m k) k v ≡ put m k v }
    ensures put_item { (xs : List (Option A)) (i : ℕ) (v : A) → i < length xs
        → put (present 0 xs) i v ≡ present 0 (slice_set xs i (Some v)) }
    ensures cut_item { (xs : List (Option A)) (i : ℕ) → i < length xs
        → cut (present 0 xs) i ≡ present 0 (slice_set xs i None) }
{}

/// Where each number of a table is one of another's, the table isn't longer than the other.
#[tactic(auto, using(crate::proofs::LengthLaws::not_longer))]
pub fn tables_of_fewer_numbers_are_not_longer<A, B>()
    ensures { (m : Table A) (n : Table B) → IsCanonical m → IsCanonical n → ((q : ℕ) → has m q ≡ true → has n q ≡ true)
        → length m ≤ length n }
{}

/// The best thread of a row stands in it, and no other thread of it comes before. A row has none exactly where nobody stands
/// in it.
#[tactic(auto, using(crate::proofs::RowLaws::best_stands, crate::proofs::RowLaws::none_comes_before, crate::proofs::RowLaws::nobody_stands, crate::proofs::RowLaws::no_best))]
pub fn no_thread_of_a_row_comes_before_its_best()
    ensures stands { (rs : Rows) (r : RowId) (w : Tid) → IsCanonical rs.seats → best rs r ≡ Some w
        → row_of rs w ≡ Some r }
    ensures first { (rs : Rows) (r : RowId) (w t : Tid) → IsCanonical rs.seats → best rs r ≡ Some w
        → row_of rs t ≡ Some r → before rs t w ≡ false }
    ensures nobody { (rs : Rows) (r : RowId) (t : Tid) → IsCanonical rs.seats → best rs r ≡ None
        → row_of rs t ≡ Some r → ⊥ }
    ensures none { (rs : Rows) (r : RowId) → IsCanonical rs.seats → ((t : Tid) → row_of rs t ≡ Some r → ⊥)
        → best rs r ≡ None }
{}

/// The threads of a row in their order are those that stand in it, and a thread stands in one row at most.
#[tactic(auto, using(crate::proofs::StandingLaws::among_is, crate::proofs::StandingLaws::one_row))]
pub fn threads_stand_in_one_row()
    ensures all { (rs : Rows) (r : RowId) (t : Tid) → IsCanonical rs.seats
        → (is_among t (best_first rs r) ≡ true) ↔ (row_of rs t ≡ Some r) }
    ensures one { (rs : Rows) (t : Tid) (a b : RowId) → IsCanonical rs.seats → is_among t (best_first rs a) ≡ true
        → is_among t (best_first rs b) ≡ true → a ≡ b }
{}

/// The seats stay a table whose numbers rise, whatever becomes of threads.
#[tactic(auto, using(crate::proofs::MoveLaws::canonical_put_in_row, crate::proofs::MoveLaws::canonical_take_out, crate::proofs::MoveLaws::canonical_leave, crate::proofs::MoveLaws::canonical_block_in, crate::proofs::MoveLaws::canonical_set_rank, crate::proofs::MoveLaws::canonical_dispatch, crate::proofs::MoveLaws::canonical_keeps, crate::proofs::MoveLaws::canonical_make_all_ready))]
pub fn rows_stay_canonical()
    ensures put_in_row { (rs : Rows) (r : RowId) (t : Tid) (rank : ℕ) → IsCanonical rs.seats
        → IsCanonical (put_in_row rs r t rank).seats }
    ensures take_out { (rs : Rows) (t : Tid) → IsCanonical rs.seats → IsCanonical (take_out rs t).rows.seats }
    ensures leave { (rs : Rows) (t : Tid) → IsCanonical rs.seats → IsCanonical (leave rs t).seats }
    ensures block_in { (rs : Rows) (r : RowId) (t : Tid) (rank : ℕ) → IsCanonical rs.seats
        → IsCanonical (block_in rs r t rank).seats }
    ensures set_rank { (rs : Rows) (t : Tid) (rank : ℕ) → IsCanonical rs.seats
        → IsCanonical (set_rank rs t rank).seats }
    ensures dispatch { (rs : Rows) (p : ℕ) → IsCanonical rs.seats → IsCanonical (dispatch rs p).rows.seats }
    ensures keeps { (rs : Rows) (t : Tid) (fifo : Bool) → IsCanonical rs.seats
        → IsCanonical (keeps rs t fifo).rows.seats }
    ensures make_all_ready { (rank : Tid → ℕ) (rs : Rows) (ts : List Tid) → IsCanonical rs.seats
        → IsCanonical (make_all_ready rank rs ts).seats }
{}

/// The same of whatever calls do.
#[tactic(auto, using(crate::proofs::PartLaws::canonical_lock, crate::proofs::PartLaws::canonical_unlock, crate::proofs::PartLaws::canonical_regain, crate::proofs::PartLaws::canonical_wait, crate::proofs::PartLaws::canonical_timedwait, crate::proofs::PartLaws::canonical_pull_out, crate::proofs::PartLaws::canonical_wake_all, crate::proofs::PartLaws::canonical_free_row, crate::proofs::PartLaws::canonical_enter, crate::proofs::PartLaws::canonical_read, crate::proofs::PartLaws::canonical_close_out))]
pub fn calls_keep_rows_canonical()
    ensures lock { (ls : Locks) (rs : Rows) (m : Option NameId) (t : Tid) (rank : ℕ) → IsCanonical rs.seats
        → IsCanonical (lock ls rs m t rank).rows.seats }
    ensures unlock { (ls : Locks) (rs : Rows) (m : Option NameId) (t : Tid) → IsCanonical rs.seats
        → IsCanonical (unlock ls rs m t).rows.seats }
    ensures regain { (ls : Locks) (rs : Rows) (m : NameId) (t : Tid) (rank : ℕ) → IsCanonical rs.seats
        → IsCanonical (regain ls rs m t rank).rows.seats }
    ensures wait { (cs : Conds) (ls : Locks) (rs : Rows) (c m : NameId) (t : Tid) (rank : ℕ) → IsCanonical rs.seats
        → IsCanonical (wait cs ls rs c m t rank).rows.seats }
    ensures timedwait { (cs : Conds) (ls : Locks) (rs : Rows) (c m : NameId) (until now : ℤ) (t : Tid) (rank : ℕ)
        → IsCanonical rs.seats → IsCanonical (timedwait cs ls rs c m until now t rank).rows.seats }
    ensures delay { (cs : Conds) (rs : Rows) (ticks now : ℤ) (t : Tid) (rank : ℕ) → IsCanonical rs.seats
        → IsCanonical (delay cs rs ticks now t rank).rows.seats }
    ensures pull_out { (cs : Conds) (rs : Rows) (t : Tid) → IsCanonical rs.seats
        → IsCanonical (pull_out cs rs t).rows.seats }
    ensures wake_all { (rank : Tid → ℕ) (cs : Conds) (ls : Locks) (rs : Rows) (ts : List Tid) → IsCanonical rs.seats
        → IsCanonical (wake_all rank cs ls rs ts).rows.seats }
    ensures free_row { (rank : Tid → ℕ) (rs : Rows) (r : RowId) → IsCanonical rs.seats
        → IsCanonical (free_row rank rs r).rows.seats }
    ensures enter { (os : Onces) (rs : Rows) (o : NameId) (t : Tid) (rank : ℕ) → IsCanonical rs.seats
        → IsCanonical (enter os rs o t rank).rows.seats }
    ensures undone { (os : Onces) (rs : Rows) (o : NameId) → IsCanonical rs.seats
        → IsCanonical (undone os rs o).rows.seats }
    ensures read { (ps : Pipes) (rs : Rows) (p : NameId) (t : Tid) (rank : ℕ) → IsCanonical rs.seats
        → IsCanonical (read ps rs p t rank).rows.seats }
    ensures write { (ps : Pipes) (rs : Rows) (p : NameId) (v : ℤ) (t : Tid) (rank : ℕ) → IsCanonical rs.seats
        → IsCanonical (write ps rs p v t rank).rows.seats }
    ensures close_out { (rank : Tid → ℕ) (ps : Pipes) (rs : Rows) (p : NameId) → IsCanonical rs.seats
        → IsCanonical (close_out rank ps rs p).rows.seats }
    ensures cancel_wait { (rank : Tid → ℕ) (cs : Conds) (ps : Pipes) (ls : Locks) (rs : Rows) (t : Tid)
        → IsCanonical rs.seats → IsCanonical (cancel_wait rank cs ps ls rs t).rows.seats }
{}

/// A ready thread has greater rank than this where the best one has; and where none has, one has equal rank where the best
/// one has.
#[tactic(auto, using(crate::proofs::StandingLaws::outranked_by_best, crate::proofs::StandingLaws::outranked_by_nobody, crate::proofs::StandingLaws::matched_by_best, crate::proofs::StandingLaws::matched_by_nobody))]
pub fn the_best_ready_thread_tells_who_gives_way()
    ensures outranked { (rs : Rows) (rank : ℕ) (w : Tid) (s : Seat) → IsCanonical rs.seats
        → best rs row.Ready ≡ Some w → seat_of rs w ≡ Some s → is_outranked rs rank ≡ nat_lt rank s.rank }
    ensures matched { (rs : Rows) (rank : ℕ) (w : Tid) (s : Seat) → IsCanonical rs.seats → best rs row.Ready ≡ Some w
        → seat_of rs w ≡ Some s → is_outranked rs rank ≡ false → is_matched rs rank ≡ (s.rank == rank) }
    ensures by_nobody { (rs : Rows) (rank : ℕ) → best rs row.Ready ≡ None → is_outranked rs rank ≡ false }
    ensures like_nobody { (rs : Rows) (rank : ℕ) → best rs row.Ready ≡ None → is_matched rs rank ≡ false }
{}

/// A thread runs on one processor at most. Where a processor has a thread, or takes one, which it does where it has none,
/// some thread can run.
#[tactic(auto, using(crate::proofs::RunningLaws::one_processor, crate::proofs::RunningLaws::running_can, crate::proofs::RunningLaws::taken_could, crate::proofs::RunningLaws::taken_free))]
pub fn threads_run_on_one_processor()
    ensures one { (rs : Rows) (p q : ℕ) (t : Tid) → IsCanonical rs.seats → running rs p ≡ Some t
        → running rs q ≡ Some t → p ≡ q }
    ensures can_run { (rs : Rows) (p : ℕ) (t : Tid) → running rs p ≡ Some t → some_can_run rs ≡ true }
    ensures could_run { (rs : Rows) (p : ℕ) (t : Tid) → (dispatch rs p).taken ≡ Some t → some_can_run rs ≡ true }
    ensures had_none { (rs : Rows) (p : ℕ) (t : Tid) → (dispatch rs p).taken ≡ Some t → running rs p ≡ None }
{}

/// A row that becomes ready: its best thread does, and then those that are left.
#[tactic(auto, using(crate::proofs::WakeLaws::free_nobody, crate::proofs::WakeLaws::free_step))]
pub fn rows_are_freed_one_at_a_time()
    ensures nobody { (rank : Tid → ℕ) (rs : Rows) (r : RowId) → best rs r ≡ None
        → free_row rank rs r ≡ record { rows = rs; woken = [] } }
    ensures step { (rank : Tid → ℕ) (rs : Rows) (r : RowId) (t : Tid) → IsCanonical rs.seats
        → is_same_row r row.Ready ≡ false → best rs r ≡ Some t
        → free_row rank rs r
        ≡ record {
          rows = (free_row rank (make_ready rank (take_out rs t).rows t) r).rows;
          woken = t ∷ (free_row rank (make_ready rank (take_out rs t).rows t) r).woken;
        } }
{}

/// Threads that are woken by a broadcast, or whose time has come: the best leaves its wait, and then those that are left.
#[tactic(auto, using(crate::proofs::WakeLaws::wake_row_nobody, crate::proofs::WakeLaws::wake_cond_step, crate::proofs::DueLaws::wake_due_nobody, crate::proofs::DueLaws::wake_due_step))]
pub fn threads_are_woken_one_at_a_time()
    ensures nobody { (rank : Tid → ℕ) (cs : Conds) (ls : Locks) (rs : Rows) (c : NameId) → best rs (row.Cond c) ≡ None
        → wake_all rank cs ls rs (best_first rs (row.Cond c))
        ≡ record { conds = cs; locks = ls; rows = rs; woken = []; gifts = [] } }
    ensures waiter { (rank : Tid → ℕ) (cs : Conds) (ls : Locks) (rs : Rows) (c : NameId) (t : Tid)
        → IsCanonical rs.seats → best rs (row.Cond c) ≡ Some t
        → wake_all rank cs ls rs (best_first rs (row.Cond c))
        ≡ wake_then rank cs ls rs t (λ _ rows. best_first rows (row.Cond c)) }
    ensures none_due { (rank : Tid → ℕ) (cs : Conds) (ls : Locks) (rs : Rows) (now : ℤ)
        → number_in (best_of (due cs rs now)) ≡ None
        → wake_all rank cs ls rs (due_first cs rs now)
        ≡ record { conds = cs; locks = ls; rows = rs; woken = []; gifts = [] } }
    ensures due { (rank : Tid → ℕ) (cs : Conds) (ls : Locks) (rs : Rows) (now : ℤ) (t : Tid) → IsCanonical rs.seats
        → number_in (best_of (due cs rs now)) ≡ Some t
        → wake_all rank cs ls rs (due_first cs rs now)
        ≡ wake_then rank cs ls rs t (λ conds rows. due_first conds rows now) }
{}
