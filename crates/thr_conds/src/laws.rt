//! The laws on conditions and rows: each is a function that does nothing and whose contract is the law.

ghost use Rattle.std.specs.Prelude.{◌≡◌, ◌≤◌, ℕ, ℤ, Bool, true, false, [], List, length, Option, Some, None};
ghost use Rattle.thr_values.specs.declared.number.Tid.{Tid};
ghost use Rattle.thr_values.specs.declared.number.NameId.{NameId};
ghost use Rattle.thr_values.specs.declared.reply.Reply.TheVariants as reply;
ghost use Rattle.thr_parts.specs.declared.row.RowId.{RowId};
ghost use Rattle.thr_parts.specs.declared.row.RowId.TheVariants as row;
ghost use Rattle.thr_parts.specs.Tables.{has, IsCanonical, keep_if};
ghost use Rattle.thr_parts.specs.Rows.{Rows, no_rows, row_of, best, best_first, most};
ghost use Rattle.thr_parts.specs.Moves.{put_in_row, take_out, take_out_if, leave, block_in, set_rank, free_row};
ghost use Rattle.thr_parts.specs.Dispatch.{dispatch, keeps};
ghost use Rattle.thr_parts.specs.Mutexes.{Locks};
ghost use Rattle.thr_parts.specs.Locking.{lock, unlock, give_up, regain};
ghost use Rattle.thr_parts.specs.Conditions.{Conds, no_conds, cond_init, cond_destroy, wait_of, wait, timedwait, delay};
ghost use Rattle.thr_parts.specs.Waking.{signal, take_next, pull_out, resume, wake_all, broadcast};
ghost use Rattle.thr_parts.specs.Expiry.{due_first, expire};
ghost use Rattle.thr_parts.specs.Keys.{Onces};
ghost use Rattle.thr_parts.specs.OnceBlocks.{enter, undone};
ghost use Rattle.thr_parts.specs.Pipes.{Pipes, read, write};
ghost use Rattle.thr_parts.specs.Closing.{close_out};
ghost use Rattle.thr_parts.specs.Closing as pipes;
ghost use Rattle.thr_parts.specs.CancelledWaits.{cancel_wait};
ghost use Rattle.thr_rows.specs.Room.{HasRoom};
ghost use Rattle.thr_conds.specs.Agreement.{if_waiting, WaitsAgree};
ghost use Rattle.thr_conds.specs.Taking.{taken_then, nobody_woken, taken_then_broadcast};

/// What a broadcast wakes is what is woken by taking the next waiter until none is left.
#[tactic(auto, using(crate::proofs::TakingLaws::broadcast_none, crate::proofs::TakingLaws::broadcast_next))]
pub fn broadcasts_take_one_waiter_at_a_time()
    ensures none { (rank : Tid → ℕ) (cs : Conds) (ls : Locks) (rs : Rows) (c : NameId) → IsCanonical rs.seats
        → WaitsAgree cs rs → (take_next cs rs c).waiter ≡ None
        → wake_all rank cs ls rs (best_first rs (row.Cond c))
        ≡ record { conds = cs; locks = ls; rows = rs; woken = []; gifts = [] } }
    ensures next { (rank : Tid → ℕ) (cs : Conds) (ls : Locks) (rs : Rows) (c : NameId) (t : Tid) (m : NameId)
        → IsCanonical rs.seats → (take_next cs rs c).waiter ≡ Some (t, m)
        → wake_all rank cs ls rs (best_first rs (row.Cond c))
        ≡ taken_then rank (take_next cs rs c).conds ls (take_next cs rs c).rows t (Some m) (λ _ rows. best_first rows (row.Cond c)) }
{}

/// A broadcast on a condition that isn't made is refused and changes nothing. On one that is made it is `ok`, and does what these
/// calls do one after the other: the next waiter is taken and gets its mutex or waits for it, until none is left.
#[tactic(auto, using(crate::proofs::BroadcastLaws::unmade, crate::proofs::BroadcastLaws::nobody, crate::proofs::BroadcastLaws::next))]
pub fn broadcasts_wake_waiters_as_calls_do()
    ensures unmade { (rank : Tid → ℕ) (cs : Conds) (ls : Locks) (rs : Rows) (c : NameId) → has cs.made c.0 ≡ false
        → broadcast rank cs ls rs c ≡ record { reply = reply.Einval; woken = nobody_woken cs ls rs } }
    ensures none { (rank : Tid → ℕ) (cs : Conds) (ls : Locks) (rs : Rows) (c : NameId) → IsCanonical rs.seats
        → WaitsAgree cs rs → has cs.made c.0 ≡ true → (take_next cs rs c).waiter ≡ None
        → broadcast rank cs ls rs c ≡ record { reply = reply.Done; woken = nobody_woken cs ls rs } }
    ensures next { (rank : Tid → ℕ) (cs : Conds) (ls : Locks) (rs : Rows) (c : NameId) (t : Tid) (m : NameId)
        → IsCanonical rs.seats → has cs.made c.0 ≡ true → (take_next cs rs c).waiter ≡ Some (t, m)
        → broadcast rank cs ls rs c
        ≡ record {
          reply = reply.Done;
          woken = taken_then_broadcast rank (take_next cs rs c).conds ls (take_next cs rs c).rows t m c;
        } }
{}

/// A move of the clock wakes what is woken by taking the best thread whose time has come until none is left.
#[tactic(auto, using(crate::proofs::TakingLaws::expiry_none, crate::proofs::TakingLaws::expiry_next))]
pub fn times_end_one_wait_at_a_time()
    ensures none { (rank : Tid → ℕ) (cs : Conds) (ls : Locks) (rs : Rows) (now : ℤ) → (expire cs rs now).who ≡ None
        → wake_all rank cs ls rs (due_first cs rs now)
        ≡ record { conds = cs; locks = ls; rows = rs; woken = []; gifts = [] } }
    ensures next { (rank : Tid → ℕ) (cs : Conds) (ls : Locks) (rs : Rows) (now : ℤ) (t : Tid) (m : Option NameId)
        → IsCanonical rs.seats → (expire cs rs now).who ≡ Some (t, m)
        → wake_all rank cs ls rs (due_first cs rs now)
        ≡ taken_then rank (expire cs rs now).conds ls (expire cs rs now).rows t m (λ conds rows. due_first conds rows now) }
{}

/// Conditions and rows agree on who waits at the opening, and go on to agree where threads come and go that don't wait on a
/// condition or for a time. No thread waits so that runs, stands nowhere or stands in another row, such as the best of that.
#[tactic(auto, using(crate::proofs::KeepLaws::agree_opening, crate::proofs::KeepLaws::no_wait, crate::proofs::KeepLaws::best_waits_not, crate::proofs::KeepLaws::agree_put, crate::proofs::KeepLaws::agree_take_out, crate::proofs::KeepLaws::agree_take_best, crate::proofs::KeepLaws::agree_leave, crate::proofs::KeepLaws::agree_block_in, crate::proofs::KeepLaws::agree_set_rank, crate::proofs::KeepLaws::agree_dispatch, crate::proofs::KeepLaws::agree_keeps, crate::proofs::KeepLaws::agree_free_row))]
pub fn rows_go_on_to_agree_on_waits()
    ensures opening { WaitsAgree no_conds no_rows }
    ensures elsewhere { (cs : Conds) (rs : Rows) (t : Tid) → WaitsAgree cs rs → if_waiting (row_of rs t) ≡ None
        → wait_of cs t ≡ None }
    ensures best { (cs : Conds) (rs : Rows) (r : RowId) (t : Tid) → IsCanonical rs.seats → WaitsAgree cs rs
        → if_waiting (Some r) ≡ None → best rs r ≡ Some t → wait_of cs t ≡ None }
    ensures put_in_row { (cs : Conds) (rs : Rows) (r : RowId) (t : Tid) (rank : ℕ) → WaitsAgree cs rs
        → wait_of cs t ≡ None → if_waiting (Some r) ≡ None → WaitsAgree cs (put_in_row rs r t rank) }
    ensures take_out { (cs : Conds) (rs : Rows) (t : Tid) → WaitsAgree cs rs → wait_of cs t ≡ None
        → WaitsAgree cs (take_out rs t).rows }
    ensures take_best { (b : Bool) (cs : Conds) (rs : Rows) (r : RowId) → IsCanonical rs.seats → WaitsAgree cs rs
        → if_waiting (Some r) ≡ None → WaitsAgree cs (take_out_if rs (keep_if b (best rs r))) }
    ensures leave { (cs : Conds) (rs : Rows) (t : Tid) → WaitsAgree cs rs → WaitsAgree cs (leave rs t) }
    ensures block_in { (cs : Conds) (rs : Rows) (r : RowId) (t : Tid) (rank : ℕ) → WaitsAgree cs rs
        → wait_of cs t ≡ None → if_waiting (Some r) ≡ None → WaitsAgree cs (block_in rs r t rank) }
    ensures set_rank { (cs : Conds) (rs : Rows) (t : Tid) (rank : ℕ) → WaitsAgree cs rs
        → WaitsAgree cs (set_rank rs t rank) }
    ensures dispatch { (cs : Conds) (rs : Rows) (p : ℕ) → IsCanonical rs.seats → WaitsAgree cs rs
        → WaitsAgree cs (dispatch rs p).rows }
    ensures keeps { (cs : Conds) (rs : Rows) (t : Tid) (fifo : Bool) → WaitsAgree cs rs
        → WaitsAgree cs (keeps rs t fifo).rows }
    ensures free_row { (rank : Tid → ℕ) (cs : Conds) (rs : Rows) (r : RowId) → IsCanonical rs.seats
        → WaitsAgree cs rs → if_waiting (Some r) ≡ None → WaitsAgree cs (free_row rank rs r).rows }
{}

/// They go on to agree after each call on conditions and times. A thread that was taken by one, or was given the mutex of a wait
/// that begins, waits no more, so that it can be put into its next row.
#[tactic(auto, using(crate::proofs::CallLaws::agree_init, crate::proofs::CallLaws::agree_destroy, crate::proofs::CallLaws::agree_wait, crate::proofs::CallLaws::agree_timedwait, crate::proofs::CallLaws::agree_delay, crate::proofs::CallLaws::agree_signal, crate::proofs::CallLaws::agree_take_next, crate::proofs::CallLaws::agree_pull_out, crate::proofs::CallLaws::agree_expire, crate::proofs::CallLaws::agree_resume, crate::proofs::CallLaws::agree_wake_all, crate::proofs::CallLaws::signalled_waits_not, crate::proofs::CallLaws::taken_next_waits_not, crate::proofs::CallLaws::pulled_out, crate::proofs::CallLaws::expired_waits_not, crate::proofs::CallLaws::given_waits_not, crate::proofs::CallLaws::timed_given_waits_not))]
pub fn calls_on_conditions_keep_waits_in_agreement()
    ensures init { (cs : Conds) (rs : Rows) (c : NameId) → WaitsAgree cs rs → WaitsAgree (cond_init cs c).conds rs }
    ensures destroy { (cs : Conds) (rs : Rows) (c : NameId) → WaitsAgree cs rs
        → WaitsAgree (cond_destroy cs c).conds rs }
    ensures wait { (cs : Conds) (ls : Locks) (rs : Rows) (c m : NameId) (t : Tid) (rank : ℕ) → IsCanonical rs.seats
        → WaitsAgree cs rs → WaitsAgree (wait cs ls rs c m t rank).conds (wait cs ls rs c m t rank).rows }
    ensures timedwait { (cs : Conds) (ls : Locks) (rs : Rows) (c m : NameId) (until now : ℤ) (t : Tid) (rank : ℕ)
        → IsCanonical rs.seats → WaitsAgree cs rs
        → WaitsAgree (timedwait cs ls rs c m until now t rank).conds (timedwait cs ls rs c m until now t rank).rows }
    ensures delay { (cs : Conds) (rs : Rows) (ticks now : ℤ) (t : Tid) (rank : ℕ) → WaitsAgree cs rs
        → WaitsAgree (delay cs rs ticks now t rank).conds (delay cs rs ticks now t rank).rows }
    ensures signal { (cs : Conds) (rs : Rows) (c : NameId) → WaitsAgree cs rs
        → WaitsAgree (signal cs rs c).conds (signal cs rs c).rows }
    ensures take_next { (cs : Conds) (rs : Rows) (c : NameId) → WaitsAgree cs rs
        → WaitsAgree (take_next cs rs c).conds (take_next cs rs c).rows }
    ensures pull_out { (cs : Conds) (rs : Rows) (t : Tid) → WaitsAgree cs rs
        → WaitsAgree (pull_out cs rs t).conds (pull_out cs rs t).rows }
    ensures expire { (cs : Conds) (rs : Rows) (now : ℤ) → IsCanonical rs.seats → WaitsAgree cs rs
        → WaitsAgree (expire cs rs now).conds (expire cs rs now).rows }
    ensures resume { (rank : Tid → ℕ) (cs : Conds) (ls : Locks) (rs : Rows) (t : Tid) (m : Option NameId)
        → WaitsAgree cs rs → wait_of cs t ≡ None → WaitsAgree cs (resume rank ls rs t m).rows }
    ensures wake_all { (rank : Tid → ℕ) (cs : Conds) (ls : Locks) (rs : Rows) (ts : List Tid) → WaitsAgree cs rs
        → WaitsAgree (wake_all rank cs ls rs ts).conds (wake_all rank cs ls rs ts).rows }
    ensures signalled { (cs : Conds) (rs : Rows) (c : NameId) (t : Tid) (m : NameId)
        → (signal cs rs c).waiter ≡ Some (t, m) → wait_of (signal cs rs c).conds t ≡ None }
    ensures taken_next { (cs : Conds) (rs : Rows) (c : NameId) (t : Tid) (m : NameId)
        → (take_next cs rs c).waiter ≡ Some (t, m) → wait_of (take_next cs rs c).conds t ≡ None }
    ensures pulled_out { (cs : Conds) (rs : Rows) (t : Tid) → wait_of (pull_out cs rs t).conds t ≡ None }
    ensures expired { (cs : Conds) (rs : Rows) (now : ℤ) (t : Tid) (m : Option NameId)
        → (expire cs rs now).who ≡ Some (t, m) → wait_of (expire cs rs now).conds t ≡ None }
    ensures given { (cs : Conds) (ls : Locks) (rs : Rows) (c m : NameId) (t : Tid) (rank : ℕ) (u : Tid)
        → IsCanonical rs.seats → WaitsAgree cs rs → (wait cs ls rs c m t rank).given ≡ Some u
        → wait_of (wait cs ls rs c m t rank).conds u ≡ None }
    ensures timed_given { (cs : Conds) (ls : Locks) (rs : Rows) (c m : NameId) (until now : ℤ) (t : Tid) (rank : ℕ)
        (u : Tid) → IsCanonical rs.seats → WaitsAgree cs rs
        → (timedwait cs ls rs c m until now t rank).given ≡ Some u
        → wait_of (timedwait cs ls rs c m until now t rank).conds u ≡ None }
{}

/// Where a thread has left its wait there is room for it in another row. Signals and broadcasts have a law of `thr_rows`.
#[tactic(auto, using(crate::proofs::AgreementLaws::room_of_pull_out, crate::proofs::AgreementLaws::room_of_expire))]
pub fn threads_that_leave_their_waits_give_room()
    ensures pull_out { (cs : Conds) (rs : Rows) (t : Tid) (m : Option NameId) → IsCanonical rs.seats
        → length rs.seats ≤ most → WaitsAgree cs rs → (pull_out cs rs t).left ≡ Some m
        → HasRoom (pull_out cs rs t).rows }
    ensures expire { (cs : Conds) (rs : Rows) (now : ℤ) (t : Tid) (m : Option NameId) → IsCanonical rs.seats
        → length rs.seats ≤ most → WaitsAgree cs rs → (expire cs rs now).who ≡ Some (t, m)
        → HasRoom (expire cs rs now).rows }
{}

/// They go on to agree after each call on other objects, by a thread that doesn't wait.
#[tactic(auto, using(crate::proofs::CallLaws::agree_lock, crate::proofs::CallLaws::agree_unlock, crate::proofs::CallLaws::agree_regain, crate::proofs::CallLaws::agree_enter, crate::proofs::CallLaws::agree_undone, crate::proofs::CallLaws::agree_read, crate::proofs::CallLaws::agree_write, crate::proofs::CallLaws::agree_close_out, crate::proofs::CallLaws::agree_cancel_wait))]
pub fn calls_on_other_objects_keep_waits_in_agreement()
    ensures lock { (cs : Conds) (ls : Locks) (rs : Rows) (m : Option NameId) (t : Tid) (rank : ℕ) → WaitsAgree cs rs
        → wait_of cs t ≡ None → WaitsAgree cs (lock ls rs m t rank).rows }
    ensures unlock { (cs : Conds) (ls : Locks) (rs : Rows) (m : Option NameId) (t : Tid) → IsCanonical rs.seats
        → WaitsAgree cs rs → WaitsAgree cs (unlock ls rs m t).rows }
    ensures give_up { (cs : Conds) (ls : Locks) (rs : Rows) (m : Option NameId) → IsCanonical rs.seats
        → WaitsAgree cs rs → WaitsAgree cs (give_up ls rs m).rows }
    ensures regain { (cs : Conds) (ls : Locks) (rs : Rows) (m : NameId) (t : Tid) (rank : ℕ) → WaitsAgree cs rs
        → wait_of cs t ≡ None → WaitsAgree cs (regain ls rs m t rank).rows }
    ensures enter { (cs : Conds) (os : Onces) (rs : Rows) (o : NameId) (t : Tid) (rank : ℕ) → WaitsAgree cs rs
        → wait_of cs t ≡ None → WaitsAgree cs (enter os rs o t rank).rows }
    ensures undone { (cs : Conds) (os : Onces) (rs : Rows) (o : NameId) → IsCanonical rs.seats → WaitsAgree cs rs
        → WaitsAgree cs (undone os rs o).rows }
    ensures read { (cs : Conds) (ps : Pipes) (rs : Rows) (p : NameId) (t : Tid) (rank : ℕ) → IsCanonical rs.seats
        → WaitsAgree cs rs → wait_of cs t ≡ None → WaitsAgree cs (read ps rs p t rank).rows }
    ensures write { (cs : Conds) (ps : Pipes) (rs : Rows) (p : NameId) (v : ℤ) (t : Tid) (rank : ℕ)
        → IsCanonical rs.seats → WaitsAgree cs rs → wait_of cs t ≡ None
        → WaitsAgree cs (write ps rs p v t rank).rows }
    ensures close_out { (rank : Tid → ℕ) (cs : Conds) (ps : Pipes) (rs : Rows) (p : NameId) → IsCanonical rs.seats
        → WaitsAgree cs rs → WaitsAgree cs (close_out rank ps rs p).rows }
    ensures pull_out { (cs : Conds) (ps : Pipes) (rs : Rows) (t : Tid) → WaitsAgree cs rs
        → WaitsAgree cs (pipes.pull_out ps rs t).rows }
    ensures cancel_wait { (rank : Tid → ℕ) (cs : Conds) (ps : Pipes) (ls : Locks) (rs : Rows) (t : Tid)
        → WaitsAgree cs rs
        → WaitsAgree (cancel_wait rank cs ps ls rs t).conds (cancel_wait rank cs ps ls rs t).rows }
{}
