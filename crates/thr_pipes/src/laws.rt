//! The laws on pipes and rows: each is a function that does nothing and whose contract is the law.

ghost use Rattle.std.specs.Prelude.{◌≡◌, ℕ, ℤ, Bool, true, false, [], List, Option, Some, None};
ghost use Rattle.thr_values.specs.declared.number.Tid.{Tid};
ghost use Rattle.thr_values.specs.declared.number.NameId.{NameId};
ghost use Rattle.thr_syntax.specs.declared.tree.Item.{Item};
ghost use Rattle.thr_parts.specs.declared.row.RowId.{RowId};
ghost use Rattle.thr_parts.specs.declared.row.RowId.TheVariants as row;
ghost use Rattle.thr_parts.specs.Tables.{IsCanonical, keep_if};
ghost use Rattle.thr_parts.specs.Replies.{is_done};
ghost use Rattle.thr_parts.specs.Rows.{Rows, no_rows, row_of, best};
ghost use Rattle.thr_parts.specs.Moves.{put_in_row, take_out, take_out_if, leave, block_in, set_rank, free_row};
ghost use Rattle.thr_parts.specs.Dispatch.{dispatch, keeps};
ghost use Rattle.thr_parts.specs.Mutexes.{Locks};
ghost use Rattle.thr_parts.specs.Locking.{lock, unlock, give_up, regain};
ghost use Rattle.thr_parts.specs.Conditions.{Conds, wait, timedwait, delay};
ghost use Rattle.thr_parts.specs.Waking.{take_next, signal, resume};
ghost use Rattle.thr_parts.specs.Keys.{Onces};
ghost use Rattle.thr_parts.specs.OnceBlocks.{enter, undone};
ghost use Rattle.thr_parts.specs.Pipes.{Pipes, first_pipes, read, write};
ghost use Rattle.thr_parts.specs.Closing.{close, close_out, pull_out};
ghost use Rattle.thr_parts.specs.CancelledWaits.{cancel_wait};
ghost use Rattle.thr_pipes.specs.Agreement.{writing_of, if_writing, WritersAgree};

/// A pipe is closed with its waiters by closing it, and then freeing the row of its readers and that of its writers where the
/// reply is `ok`. Rows are freed by taking the best until none is left.
#[tactic(auto, using(crate::proofs::ClosingLaws::closed_then_freed, crate::proofs::ClosingLaws::not_closed))]
pub fn closing_frees_readers_and_then_writers()
    ensures closed { (rank : Tid → ℕ) (ps : Pipes) (rs : Rows) (p : NameId) → is_done (close ps p).reply ≡ true
        → close_out rank ps rs p
        ≡ record {
          reply = (close ps p).reply;
          pipes = (close ps p).pipes;
          rows = (free_row rank (free_row rank rs (row.Reader p)).rows (row.Writer p)).rows;
          readers = (free_row rank rs (row.Reader p)).woken;
          writers = (free_row rank (free_row rank rs (row.Reader p)).rows (row.Writer p)).woken;
        } }
    ensures refused { (rank : Tid → ℕ) (ps : Pipes) (rs : Rows) (p : NameId) → is_done (close ps p).reply ≡ false
        → close_out rank ps rs p
        ≡ record { reply = (close ps p).reply; pipes = ps; rows = rs; readers = []; writers = [] } }
{}

/// Pipes and rows agree on who waits as a writer at the opening, and go on to agree where threads come and go that don't. No
/// thread waits so that runs, stands nowhere or stands in another row, such as the best of that.
#[tactic(auto, using(crate::proofs::KeepLaws::agree_opening, crate::proofs::KeepLaws::no_wait, crate::proofs::KeepLaws::best_writes_not, crate::proofs::KeepLaws::agree_put, crate::proofs::KeepLaws::agree_take_out, crate::proofs::KeepLaws::agree_take_best, crate::proofs::KeepLaws::agree_leave, crate::proofs::KeepLaws::agree_block_in, crate::proofs::KeepLaws::agree_set_rank, crate::proofs::KeepLaws::agree_dispatch, crate::proofs::KeepLaws::agree_keeps, crate::proofs::KeepLaws::agree_free_row))]
pub fn rows_go_on_to_agree_on_writers()
    ensures opening { (items : List Item) → WritersAgree (first_pipes items) no_rows }
    ensures elsewhere { (ps : Pipes) (rs : Rows) (t : Tid) → WritersAgree ps rs → if_writing (row_of rs t) ≡ None
        → writing_of ps t ≡ None }
    ensures best { (ps : Pipes) (rs : Rows) (r : RowId) (t : Tid) → IsCanonical rs.seats → WritersAgree ps rs
        → if_writing (Some r) ≡ None → best rs r ≡ Some t → writing_of ps t ≡ None }
    ensures put_in_row { (ps : Pipes) (rs : Rows) (r : RowId) (t : Tid) (rank : ℕ) → WritersAgree ps rs
        → writing_of ps t ≡ None → if_writing (Some r) ≡ None → WritersAgree ps (put_in_row rs r t rank) }
    ensures take_out { (ps : Pipes) (rs : Rows) (t : Tid) → WritersAgree ps rs → writing_of ps t ≡ None
        → WritersAgree ps (take_out rs t).rows }
    ensures take_best { (b : Bool) (ps : Pipes) (rs : Rows) (r : RowId) → IsCanonical rs.seats → WritersAgree ps rs
        → if_writing (Some r) ≡ None → WritersAgree ps (take_out_if rs (keep_if b (best rs r))) }
    ensures leave { (ps : Pipes) (rs : Rows) (t : Tid) → WritersAgree ps rs → WritersAgree ps (leave rs t) }
    ensures block_in { (ps : Pipes) (rs : Rows) (r : RowId) (t : Tid) (rank : ℕ) → WritersAgree ps rs
        → writing_of ps t ≡ None → if_writing (Some r) ≡ None → WritersAgree ps (block_in rs r t rank) }
    ensures set_rank { (ps : Pipes) (rs : Rows) (t : Tid) (rank : ℕ) → WritersAgree ps rs
        → WritersAgree ps (set_rank rs t rank) }
    ensures dispatch { (ps : Pipes) (rs : Rows) (p : ℕ) → IsCanonical rs.seats → WritersAgree ps rs
        → WritersAgree ps (dispatch rs p).rows }
    ensures keeps { (ps : Pipes) (rs : Rows) (t : Tid) (fifo : Bool) → WritersAgree ps rs
        → WritersAgree ps (keeps rs t fifo).rows }
    ensures free_row { (rank : Tid → ℕ) (ps : Pipes) (rs : Rows) (r : RowId) → IsCanonical rs.seats
        → WritersAgree ps rs → if_writing (Some r) ≡ None → WritersAgree ps (free_row rank rs r).rows }
{}

/// They go on to agree after each call on pipes, where a pipe that is closed is closed with its waiters. A thread that a read or
/// a write took out of its row, or that was pulled out, doesn't wait as a writer, so that it can be put into its next row.
#[tactic(auto, using(crate::proofs::CallLaws::agree_read, crate::proofs::CallLaws::agree_write, crate::proofs::CallLaws::agree_pull_out, crate::proofs::FreedLaws::agree_close_out, crate::proofs::OtherCallLaws::pulled_out))]
pub fn calls_on_pipes_keep_writers_in_agreement()
    ensures read { (ps : Pipes) (rs : Rows) (p : NameId) (t : Tid) (rank : ℕ) → IsCanonical rs.seats
        → WritersAgree ps rs → writing_of ps t ≡ None
        → WritersAgree (read ps rs p t rank).pipes (read ps rs p t rank).rows }
    ensures write { (ps : Pipes) (rs : Rows) (p : NameId) (v : ℤ) (t : Tid) (rank : ℕ) → IsCanonical rs.seats
        → WritersAgree ps rs → WritersAgree (write ps rs p v t rank).pipes (write ps rs p v t rank).rows }
    ensures pull_out { (ps : Pipes) (rs : Rows) (t : Tid) → WritersAgree ps rs
        → WritersAgree (pull_out ps rs t).pipes (pull_out ps rs t).rows }
    ensures close_out { (rank : Tid → ℕ) (ps : Pipes) (rs : Rows) (p : NameId) → IsCanonical rs.seats
        → IsCanonical ps.writing → WritersAgree ps rs
        → WritersAgree (close_out rank ps rs p).pipes (close_out rank ps rs p).rows }
    ensures relieved { (ps : Pipes) (rs : Rows) (p : NameId) (t : Tid) (rank : ℕ) (u : Tid)
        → (read ps rs p t rank).relieved ≡ Some u → writing_of (read ps rs p t rank).pipes u ≡ None }
    ensures reader { (ps : Pipes) (rs : Rows) (p : NameId) (v : ℤ) (t : Tid) (rank : ℕ) (u : Tid)
        → IsCanonical rs.seats → WritersAgree ps rs → (write ps rs p v t rank).reader ≡ Some u
        → writing_of (write ps rs p v t rank).pipes u ≡ None }
    ensures pulled_out { (ps : Pipes) (rs : Rows) (t : Tid) → WritersAgree ps rs
        → writing_of (pull_out ps rs t).pipes t ≡ None }
{}

/// They go on to agree after each call on other objects that is named here, by a thread that doesn't wait as a writer. A thread that
/// was taken out of the row of a condition doesn't wait so, so that it can be put into its next row. Of the other calls that end
/// waits on conditions and for times `thr_ended_waits` speaks.
#[tactic(auto, using(crate::proofs::OtherCallLaws::agree_lock, crate::proofs::OtherCallLaws::agree_unlock, crate::proofs::OtherCallLaws::agree_regain, crate::proofs::OtherCallLaws::agree_resume, crate::proofs::OtherCallLaws::agree_enter, crate::proofs::OtherCallLaws::agree_wait, crate::proofs::OtherCallLaws::agree_timedwait, crate::proofs::OtherCallLaws::agree_signal, crate::proofs::OtherCallLaws::agree_take_next, crate::proofs::OtherCallLaws::signalled_writes_not, crate::proofs::OtherCallLaws::taken_next_writes_not, crate::proofs::OtherCallLaws::agree_cancel_wait))]
pub fn calls_on_other_objects_keep_writers_in_agreement()
    ensures lock { (ps : Pipes) (ls : Locks) (rs : Rows) (m : Option NameId) (t : Tid) (rank : ℕ) → WritersAgree ps rs
        → writing_of ps t ≡ None → WritersAgree ps (lock ls rs m t rank).rows }
    ensures unlock { (ps : Pipes) (ls : Locks) (rs : Rows) (m : Option NameId) (t : Tid) → IsCanonical rs.seats
        → WritersAgree ps rs → WritersAgree ps (unlock ls rs m t).rows }
    ensures give_up { (ps : Pipes) (ls : Locks) (rs : Rows) (m : Option NameId) → IsCanonical rs.seats
        → WritersAgree ps rs → WritersAgree ps (give_up ls rs m).rows }
    ensures regain { (ps : Pipes) (ls : Locks) (rs : Rows) (m : NameId) (t : Tid) (rank : ℕ) → WritersAgree ps rs
        → writing_of ps t ≡ None → WritersAgree ps (regain ls rs m t rank).rows }
    ensures resume { (rank : Tid → ℕ) (ps : Pipes) (ls : Locks) (rs : Rows) (t : Tid) (m : Option NameId)
        → WritersAgree ps rs → writing_of ps t ≡ None → WritersAgree ps (resume rank ls rs t m).rows }
    ensures enter { (ps : Pipes) (os : Onces) (rs : Rows) (o : NameId) (t : Tid) (rank : ℕ) → WritersAgree ps rs
        → writing_of ps t ≡ None → WritersAgree ps (enter os rs o t rank).rows }
    ensures undone { (ps : Pipes) (os : Onces) (rs : Rows) (o : NameId) → IsCanonical rs.seats → WritersAgree ps rs
        → WritersAgree ps (undone os rs o).rows }
    ensures wait { (ps : Pipes) (cs : Conds) (ls : Locks) (rs : Rows) (c m : NameId) (t : Tid) (rank : ℕ)
        → IsCanonical rs.seats → WritersAgree ps rs → writing_of ps t ≡ None
        → WritersAgree ps (wait cs ls rs c m t rank).rows }
    ensures timedwait { (ps : Pipes) (cs : Conds) (ls : Locks) (rs : Rows) (c m : NameId) (until now : ℤ) (t : Tid)
        (rank : ℕ) → IsCanonical rs.seats → WritersAgree ps rs → writing_of ps t ≡ None
        → WritersAgree ps (timedwait cs ls rs c m until now t rank).rows }
    ensures delay { (ps : Pipes) (cs : Conds) (rs : Rows) (ticks now : ℤ) (t : Tid) (rank : ℕ) → WritersAgree ps rs
        → writing_of ps t ≡ None → WritersAgree ps (delay cs rs ticks now t rank).rows }
    ensures signal { (ps : Pipes) (cs : Conds) (rs : Rows) (c : NameId) → IsCanonical rs.seats → WritersAgree ps rs
        → WritersAgree ps (signal cs rs c).rows }
    ensures take_next { (ps : Pipes) (cs : Conds) (rs : Rows) (c : NameId) → IsCanonical rs.seats → WritersAgree ps rs
        → WritersAgree ps (take_next cs rs c).rows }
    ensures signalled { (ps : Pipes) (cs : Conds) (rs : Rows) (c : NameId) (t : Tid) (m : NameId) → IsCanonical rs.seats
        → WritersAgree ps rs → (signal cs rs c).waiter ≡ Some (t, m) → writing_of ps t ≡ None }
    ensures taken_next { (ps : Pipes) (cs : Conds) (rs : Rows) (c : NameId) (t : Tid) (m : NameId)
        → IsCanonical rs.seats → WritersAgree ps rs → (take_next cs rs c).waiter ≡ Some (t, m)
        → writing_of ps t ≡ None }
    ensures cancel_wait { (rank : Tid → ℕ) (ps : Pipes) (cs : Conds) (ls : Locks) (rs : Rows) (t : Tid)
        → WritersAgree ps rs
        → WritersAgree (cancel_wait rank cs ps ls rs t).pipes (cancel_wait rank cs ps ls rs t).rows }
{}
