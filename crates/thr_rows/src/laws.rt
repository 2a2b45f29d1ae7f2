//! The laws on rows: each is a function that does nothing and whose contract is the law.

ghost use Rattle.std.specs.Prelude.{◌≡◌, ◌≤◌, ℕ, ℤ, length, true, Option, Some, None};
ghost use Rattle.thr_values.specs.declared.number.Tid.{Tid};
ghost use Rattle.thr_values.specs.declared.number.NameId.{NameId};
ghost use Rattle.thr_parts.specs.declared.row.RowId.{RowId};
ghost use Rattle.thr_parts.specs.Tables.{IsCanonical};
ghost use Rattle.thr_parts.specs.Rows.{Rows, seat_of, row_of, is_in_row, is_running, most, best};
ghost use Rattle.thr_parts.specs.Moves.{take_out, take_out_if, leave};
ghost use Rattle.thr_parts.specs.Mutexes.{Locks};
ghost use Rattle.thr_parts.specs.Locking.{unlock};
ghost use Rattle.thr_parts.specs.Conditions.{Conds, wait, timedwait};
ghost use Rattle.thr_parts.specs.Waking.{take_next, signal};
ghost use Rattle.thr_parts.specs.Keys.{Onces};
ghost use Rattle.thr_parts.specs.OnceBlocks.{undone};
ghost use Rattle.thr_parts.specs.Pipes.{Pipes, read, write};
ghost use Rattle.thr_parts.specs.Closing.{pull_out};
ghost use Rattle.thr_rows.specs.Room.{HasRoom, HasRoomToWait};

/// A thread that was to leave its row stands in none, so that no object that agrees with the rows has a wait of it.
#[tactic(auto, using(crate::proofs::RoomLaws::in_no_row))]
pub fn threads_that_leave_stand_in_no_row()
    ensures { (rs : Rows) (t : Tid) → row_of (take_out rs t).rows t ≡ None }
{}

/// Where a thread leaves its row or its processor there is room for one more, so that it can be put into its next row.
#[tactic(auto, using(crate::proofs::RoomLaws::room_of_row, crate::proofs::RoomLaws::room_of_processor, crate::proofs::RoomLaws::room_of_best))]
pub fn threads_that_leave_give_room()
    ensures row { (rs : Rows) (t : Tid) → IsCanonical rs.seats → length rs.seats ≤ most
        → is_in_row (seat_of rs t) ≡ true → HasRoom (take_out rs t).rows }
    ensures processor { (rs : Rows) (t : Tid) → IsCanonical rs.seats → length rs.seats ≤ most
        → is_running (seat_of rs t) ≡ true → HasRoom (leave rs t) }
    ensures best { (rs : Rows) (r : RowId) (t : Tid) → IsCanonical rs.seats → length rs.seats ≤ most
        → best rs r ≡ Some t → HasRoom (take_out_if rs (Some t)) }
{}

/// So there is after each call that takes a thread out of its row for the layer above, which makes it ready or has it wait
/// elsewhere.
#[tactic(auto, using(crate::proofs::RoomLaws::room_of_unlock, crate::proofs::RoomLaws::room_of_wait, crate::proofs::RoomLaws::room_of_signal, crate::proofs::RoomLaws::room_of_take_next, crate::proofs::RoomLaws::room_of_read))]
pub fn calls_that_take_threads_give_room()
    ensures unlock { (ls : Locks) (rs : Rows) (m : Option NameId) (t u : Tid) → IsCanonical rs.seats
        → length rs.seats ≤ most → (unlock ls rs m t).given ≡ Some u → HasRoom (unlock ls rs m t).rows }
    ensures wait { (cs : Conds) (ls : Locks) (rs : Rows) (c m : NameId) (t u : Tid) (rank : ℕ) → IsCanonical rs.seats
        → length rs.seats ≤ most → HasRoomToWait rs t → (wait cs ls rs c m t rank).given ≡ Some u
        → HasRoom (wait cs ls rs c m t rank).rows }
    ensures timedwait { (cs : Conds) (ls : Locks) (rs : Rows) (c m : NameId) (until now : ℤ) (t u : Tid) (rank : ℕ)
        → IsCanonical rs.seats → length rs.seats ≤ most → HasRoomToWait rs t
        → (timedwait cs ls rs c m until now t rank).given ≡ Some u
        → HasRoom (timedwait cs ls rs c m until now t rank).rows }
    ensures signal { (cs : Conds) (rs : Rows) (c : NameId) (t : Tid) (m : NameId) → IsCanonical rs.seats
        → length rs.seats ≤ most → (signal cs rs c).waiter ≡ Some (t, m) → HasRoom (signal cs rs c).rows }
    ensures take_next { (cs : Conds) (rs : Rows) (c : NameId) (t : Tid) (m : NameId) → IsCanonical rs.seats
        → length rs.seats ≤ most → (take_next cs rs c).waiter ≡ Some (t, m) → HasRoom (take_next cs rs c).rows }
    ensures undone { (os : Onces) (rs : Rows) (o : NameId) (u : Tid) → IsCanonical rs.seats → length rs.seats ≤ most
        → (undone os rs o).runner ≡ Some u → HasRoom (undone os rs o).rows }
    ensures read { (ps : Pipes) (rs : Rows) (p : NameId) (t u : Tid) (rank : ℕ) → IsCanonical rs.seats
        → length rs.seats ≤ most → (read ps rs p t rank).relieved ≡ Some u → HasRoom (read ps rs p t rank).rows }
    ensures write { (ps : Pipes) (rs : Rows) (p : NameId) (v : ℤ) (t u : Tid) (rank : ℕ) → IsCanonical rs.seats
        → length rs.seats ≤ most → (write ps rs p v t rank).reader ≡ Some u → HasRoom (write ps rs p v t rank).rows }
    ensures pull_out { (ps : Pipes) (rs : Rows) (t : Tid) → IsCanonical rs.seats → length rs.seats ≤ most
        → (pull_out ps rs t).stood ≡ true → HasRoom (pull_out ps rs t).rows }
{}
