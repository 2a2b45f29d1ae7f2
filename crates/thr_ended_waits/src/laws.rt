//! The laws.

ghost use Rattle.std.specs.Prelude.{◌≡◌, ℕ, ℤ, true, false, [], Option, Some, None};
ghost use Rattle.thr_values.specs.declared.number.Tid.{Tid};
ghost use Rattle.thr_values.specs.declared.number.NameId.{NameId};
ghost use Rattle.thr_parts.specs.declared.row.RowId.TheVariants as row;
ghost use Rattle.thr_parts.specs.declared.pipe.Writing.{Writing};
ghost use Rattle.thr_parts.specs.declared.wait.Wait.{Wait};
ghost use Rattle.thr_parts.specs.Tables.{IsCanonical};
ghost use Rattle.thr_parts.specs.Rows.{Rows};
ghost use Rattle.thr_parts.specs.Moves.{take_out, put_in_row};
ghost use Rattle.thr_parts.specs.Mutexes.{Locks};
ghost use Rattle.thr_parts.specs.Locking.{regain};
ghost use Rattle.thr_parts.specs.Conditions.{Conds, wait_of};
ghost use Rattle.thr_parts.specs.Waking as conditions;
ghost use Rattle.thr_parts.specs.Waking.{gift_of, broadcast};
ghost use Rattle.thr_parts.specs.Expiry.{expire, expire_all};
ghost use Rattle.thr_parts.specs.Pipes.{Pipes};
ghost use Rattle.thr_parts.specs.Closing as pipes;
ghost use Rattle.thr_parts.specs.CancelledWaits.{cancel_wait};
ghost use Rattle.thr_conds.specs.Agreement.{WaitsAgree};
ghost use Rattle.thr_pipes.specs.Agreement.{writing_of, WritersAgree};

/// A cancel ends a wait as these calls do, one after the other, by what each answers. The conditions are asked first: a thread
/// that waited on one comes to its mutex or waits for it, and one that waited for a time is ready. Where they have no wait of
/// the thread nothing has changed, and the pipes are asked: a reader or writer is ready. Where they have none either nothing
/// has changed, and the thread is taken out of its row, if it stands in one, and is ready.
#[tactic(auto, using(crate::proofs::CancelLaws::on_condition, crate::proofs::CancelLaws::for_time, crate::proofs::CancelLaws::no_wait, crate::proofs::CancelLaws::at_pipe, crate::proofs::CancelLaws::no_pipe, crate::proofs::CancelLaws::elsewhere))]
pub fn cancels_end_waits_as_calls_do()
    ensures condition { (rank : Tid → ℕ) (cs : Conds) (ps : Pipes) (ls : Locks) (rs : Rows) (t : Tid) (m : NameId)
        → WaitsAgree cs rs → (conditions.pull_out cs rs t).left ≡ Some (Some m)
        → cancel_wait rank cs ps ls rs t
        ≡ record {
          conds = (conditions.pull_out cs rs t).conds;
          pipes = ps;
          locks = (regain ls (conditions.pull_out cs rs t).rows m t (rank t)).locks;
          rows = (regain ls (conditions.pull_out cs rs t).rows m t (rank t)).rows;
          gifts = gift_of t (Some m) (regain ls (conditions.pull_out cs rs t).rows m t (rank t)).gets;
        } }
    ensures time { (rank : Tid → ℕ) (cs : Conds) (ps : Pipes) (ls : Locks) (rs : Rows) (t : Tid) → WaitsAgree cs rs
        → (conditions.pull_out cs rs t).left ≡ Some None
        → cancel_wait rank cs ps ls rs t
        ≡ record {
          conds = (conditions.pull_out cs rs t).conds;
          pipes = ps;
          locks = ls;
          rows = put_in_row (conditions.pull_out cs rs t).rows row.Ready t (rank t);
          gifts = [];
        } }
    ensures no_wait { (cs : Conds) (rs : Rows) (t : Tid) → (conditions.pull_out cs rs t).left ≡ None
        → conditions.pull_out cs rs t ≡ record { conds = cs; rows = rs; left = None } }
    ensures pipe { (rank : Tid → ℕ) (cs : Conds) (ps : Pipes) (ls : Locks) (rs : Rows) (t : Tid)
        → (conditions.pull_out cs rs t).left ≡ None → (pipes.pull_out ps rs t).stood ≡ true
        → cancel_wait rank cs ps ls rs t
        ≡ record {
          conds = cs;
          pipes = (pipes.pull_out ps rs t).pipes;
          locks = ls;
          rows = put_in_row (pipes.pull_out ps rs t).rows row.Ready t (rank t);
          gifts = [];
        } }
    ensures no_pipe { (ps : Pipes) (rs : Rows) (t : Tid) → (pipes.pull_out ps rs t).stood ≡ false
        → pipes.pull_out ps rs t ≡ record { pipes = ps; rows = rs; stood = false } }
    ensures elsewhere { (rank : Tid → ℕ) (cs : Conds) (ps : Pipes) (ls : Locks) (rs : Rows) (t : Tid)
        → (conditions.pull_out cs rs t).left ≡ None → (pipes.pull_out ps rs t).stood ≡ false
        → cancel_wait rank cs ps ls rs t
        ≡ record {
          conds = cs;
          pipes = ps;
          locks = ls;
          rows = put_in_row (take_out rs t).rows row.Ready t (rank t);
          gifts = [];
        } }
{}

/// Where conditions and pipes agree with the rows on who waits, no thread has a wait by both.
#[tactic(auto, using(crate::proofs::ApartLaws::waits_or_writes, crate::proofs::ApartLaws::writes_or_waits))]
pub fn no_thread_has_two_waits()
    ensures waits { (cs : Conds) (ps : Pipes) (rs : Rows) (t : Tid) (w : Wait) → WaitsAgree cs rs → WritersAgree ps rs
        → wait_of cs t ≡ Some w → writing_of ps t ≡ None }
    ensures writes { (cs : Conds) (ps : Pipes) (rs : Rows) (t : Tid) (w : Writing) → WaitsAgree cs rs
        → WritersAgree ps rs → writing_of ps t ≡ Some w → wait_of cs t ≡ None }
{}

/// Pipes and rows go on to agree on who waits as a writer where waits on conditions and for times end. A thread whose time has
/// come doesn't wait so, so that it can be put into its next row.
#[tactic(auto, using(crate::proofs::EndedLaws::agree_pull_out, crate::proofs::EndedLaws::agree_expire, crate::proofs::EndedLaws::expired_writes_not, crate::proofs::EndedLaws::agree_broadcast, crate::proofs::EndedLaws::agree_expire_all))]
pub fn waits_that_end_keep_writers_in_agreement()
    ensures pull_out { (cs : Conds) (ps : Pipes) (rs : Rows) (t : Tid) → WaitsAgree cs rs → WritersAgree ps rs
        → WritersAgree ps (conditions.pull_out cs rs t).rows }
    ensures expire { (cs : Conds) (ps : Pipes) (rs : Rows) (now : ℤ) → IsCanonical rs.seats → WaitsAgree cs rs
        → WritersAgree ps rs → WritersAgree ps (expire cs rs now).rows }
    ensures expired { (cs : Conds) (ps : Pipes) (rs : Rows) (now : ℤ) (t : Tid) (m : Option NameId)
        → IsCanonical rs.seats → WaitsAgree cs rs → WritersAgree ps rs → (expire cs rs now).who ≡ Some (t, m)
        → writing_of ps t ≡ None }
    ensures broadcast { (rank : Tid → ℕ) (cs : Conds) (ps : Pipes) (ls : Locks) (rs : Rows) (c : NameId)
        → IsCanonical rs.seats → WritersAgree ps rs → WritersAgree ps (broadcast rank cs ls rs c).woken.rows }
    ensures expire_all { (rank : Tid → ℕ) (cs : Conds) (ps : Pipes) (ls : Locks) (rs : Rows) (now : ℤ)
        → IsCanonical rs.seats → WaitsAgree cs rs → WritersAgree ps rs
        → WritersAgree ps (expire_all rank cs ls rs now).rows }
{}
