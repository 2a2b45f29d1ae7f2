//! Thread records and attribute cells.

ghost use Rattle.std.specs.Prelude.{◌≡◌, ◌∷◌, [], Some, None, true, false, pos, negsuc};
ghost use Rattle.thr_values.specs.declared.reply.Reply.TheVariants as reply;
ghost use Rattle.thr_values.specs.declared.scheduling.Policy.TheVariants.{Fifo, Rr, Fg, Bg};
ghost use Rattle.thr_parts.specs.Tables.{none};
ghost use Rattle.thr_parts.specs.Rows.{thread};
ghost use Rattle.thr_parts.specs.Threads.{new_attr, new_thread, first_threads, rank_at, create, join, detach, set_ended, live};
ghost use Rattle.thr_parts.specs.Scheduling.{setprio, getprio, setscheduler, getscheduler, attr_create, attr_delete, attr_setsched, attr_setprio, attr_setinherit, attr_setstack};
ghost use Rattle.thr_parts.specs.Samples.{alone, name, threads, with_cell, cell, ended_thread, detached_thread, mode, in_mode, many_records};

/// At the opening there is the first thread alone.
#[tactic(auto, unfolding(crate::specs::Computing::parts_words))]
pub fn the_first_thread()
    ensures records { first_threads ≡ threads ((1, new_thread (thread 1) Fg 16 256) ∷ []) 2 }
    ensures rank { rank_at first_threads (thread 1) ≡ 116 }
    ensures new { new_thread (thread 5) Rr 3 64
        ≡ record {
          tid = thread 5;
          policy = Rr;
          prio = 3;
          frames = 64;
          mode = record { pending = false; general = true; asynchronous = false };
          detached = false;
          ended = None;
        } }
    ensures default { new_attr ≡ cell Fg 16 true 256 }
{}

/// Cells are created as `default` is, changed and deleted.
#[tactic(auto, unfolding(crate::specs::Computing::parts_words))]
pub fn attribute_cells()
    ensures create { attr_create first_threads (name 30)
        ≡ record { reply = reply.Done; threads = with_cell (cell Fg 16 true 256) } }
    ensures create_made { attr_create (with_cell (cell Rr 3 false 17)) (name 30)
        ≡ record { reply = reply.Ebusy; threads = with_cell (cell Rr 3 false 17) } }
    ensures delete { attr_delete (with_cell new_attr) (name 30)
        ≡ record { reply = reply.Done; threads = first_threads } }
    ensures delete_unmade { attr_delete (with_cell new_attr) (name 31)
        ≡ record { reply = reply.Einval; threads = with_cell new_attr } }
    ensures sched { attr_setsched (with_cell new_attr) (name 30) Fifo
        ≡ record { reply = reply.Done; threads = with_cell (cell Fifo 16 true 256) } }
    ensures sched_unmade { attr_setsched (with_cell new_attr) (name 31) Fifo
        ≡ record { reply = reply.Einval; threads = with_cell new_attr } }
    ensures prio { attr_setprio (with_cell new_attr) (name 30) (pos 31)
        ≡ record { reply = reply.Done; threads = with_cell (cell Fg 31 true 256) } }
    ensures prio_least { attr_setprio (with_cell new_attr) (name 30) (pos 0)
        ≡ record { reply = reply.Done; threads = with_cell (cell Fg 0 true 256) } }
    ensures prio_above { attr_setprio (with_cell new_attr) (name 30) (pos 32)
        ≡ record { reply = reply.Einval; threads = with_cell new_attr } }
    ensures prio_below { attr_setprio (with_cell new_attr) (name 30) (negsuc 0)
        ≡ record { reply = reply.Einval; threads = with_cell new_attr } }
    ensures prio_unmade { attr_setprio (with_cell new_attr) (name 31) (pos 5)
        ≡ record { reply = reply.Einval; threads = with_cell new_attr } }
    ensures inherit { attr_setinherit (with_cell new_attr) (name 30) false
        ≡ record { reply = reply.Done; threads = with_cell (cell Fg 16 false 256) } }
    ensures inherit_unmade { attr_setinherit (with_cell new_attr) (name 31) false
        ≡ record { reply = reply.Einval; threads = with_cell new_attr } }
    ensures stack { attr_setstack (with_cell new_attr) (name 30) (pos 1024)
        ≡ record { reply = reply.Done; threads = with_cell (cell Fg 16 true 1024) } }
    ensures stack_least { attr_setstack (with_cell new_attr) (name 30) (pos 16)
        ≡ record { reply = reply.Done; threads = with_cell (cell Fg 16 true 16) } }
    ensures stack_above { attr_setstack (with_cell new_attr) (name 30) (pos 1025)
        ≡ record { reply = reply.Einval; threads = with_cell new_attr } }
    ensures stack_below { attr_setstack (with_cell new_attr) (name 30) (pos 15)
        ≡ record { reply = reply.Einval; threads = with_cell new_attr } }
    ensures stack_unmade { attr_setstack (with_cell new_attr) (name 31) (pos 64)
        ≡ record { reply = reply.Einval; threads = with_cell new_attr } }
{}

/// A created thread has the next number; with `inherit` it has its maker's policy and priority, and always the cell's stack.
#[tactic(auto, unfolding(crate::specs::Computing::parts_words, crate::specs::Samples::many_records))]
pub fn creations()
    ensures default { create (threads ((1, new_thread (thread 1) Fifo 20 1000) ∷ []) 5) (thread 1) None
        ≡ record {
          reply = reply.Value (pos 5);
          threads = threads ((1, new_thread (thread 1) Fifo 20 1000) ∷ (5, new_thread (thread 5) Fifo 20 256) ∷ []) 6;
        } }
    ensures inherits { (create (with_cell (cell Rr 3 true 17)) (thread 1) (Some (name 30))).threads.records
        ≡ (1, new_thread (thread 1) Fg 16 256) ∷ (2, new_thread (thread 2) Fg 16 17) ∷ [] }
    ensures own { (create (with_cell (cell Rr 3 false 17)) (thread 1) (Some (name 30))).threads.records
        ≡ (1, new_thread (thread 1) Fg 16 256) ∷ (2, new_thread (thread 2) Rr 3 17) ∷ [] }
    ensures unmade { create (with_cell new_attr) (thread 1) (Some (name 31))
        ≡ record { reply = reply.Einval; threads = with_cell new_attr } }
    ensures full { create (threads (many_records 1024 1 Fg) 1025) (thread 1) None
        ≡ record { reply = reply.Eagain; threads = threads (many_records 1024 1 Fg) 1025 } }
    ensures full_unmade { (create (threads (many_records 1024 1 Fg) 1025) (thread 1) (Some (name 30))).reply
        ≡ reply.Einval }
    ensures not_full { (create (threads (many_records 1023 1 Fg) 4000) (thread 1) None).reply ≡ reply.Value (pos 4000) }
{}

/// The replies of a join, and of marking a thread detached.
#[tactic(auto, unfolding(crate::specs::Computing::parts_words))]
pub fn joins()
    ensures none { join (threads ((1, new_thread (thread 1) Fg 16 256) ∷ []) 5) (thread 1) (pos 2) ≡ reply.Esrch }
    ensures negative { join (threads ((1, new_thread (thread 1) Fg 16 256) ∷ []) 5) (thread 1) (negsuc 0)
        ≡ reply.Esrch }
    ensures itself { join (threads ((1, detached_thread 1) ∷ []) 5) (thread 1) (pos 1) ≡ reply.Edeadlk }
    ensures detached { join (threads ((1, new_thread (thread 1) Fg 16 256) ∷ (2, detached_thread 2) ∷ []) 5) (thread 1)
        (pos 2)
        ≡ reply.Einval }
    ensures ended { join (threads ((1, new_thread (thread 1) Fg 16 256) ∷ (2, ended_thread 2 (negsuc 4)) ∷ []) 5)
        (thread 1) (pos 2)
        ≡ reply.Value (negsuc 4) }
    ensures live { join (threads ((1, new_thread (thread 1) Fg 16 256) ∷ (2, new_thread (thread 2) Fg 16 256) ∷ []) 5)
        (thread 1) (pos 2)
        ≡ reply.Blocks }
    ensures detach_none { detach (threads ((2, new_thread (thread 2) Fg 16 256) ∷ []) 5) (pos 3)
        ≡ record { reply = reply.Esrch; threads = threads ((2, new_thread (thread 2) Fg 16 256) ∷ []) 5 } }
    ensures detach_again { detach (threads ((2, detached_thread 2) ∷ []) 5) (pos 2)
        ≡ record { reply = reply.Einval; threads = threads ((2, detached_thread 2) ∷ []) 5 } }
    ensures detach_live { detach (threads ((2, new_thread (thread 2) Fg 16 256) ∷ []) 5) (pos 2)
        ≡ record { reply = reply.Done; threads = threads ((2, detached_thread 2) ∷ []) 5 } }
    ensures detach_ended { detach (threads ((1, detached_thread 1) ∷ (2, ended_thread 2 (pos 0)) ∷ []) 5) (pos 2)
        ≡ record { reply = reply.Done; threads = threads ((1, detached_thread 1) ∷ []) 5 } }
    ensures ends { set_ended (threads ((2, new_thread (thread 2) Fg 16 256) ∷ []) 5) (thread 2) (pos 9)
        ≡ threads ((2, ended_thread 2 (pos 9)) ∷ []) 5 }
    ensures ends_detached { set_ended (threads ((1, detached_thread 1) ∷ (2, detached_thread 2) ∷ []) 5) (thread 2)
        (pos 9)
        ≡ threads ((1, detached_thread 1) ∷ []) 5 }
{}

/// The threads that have not ended.
#[tactic(auto, unfolding(crate::specs::Computing::parts_words))]
pub fn live_threads()
    ensures two { live (threads ((1, ended_thread 1 (pos 0)) ∷ (2, detached_thread 2) ∷ (5, in_mode 5 (mode true true true)) ∷ []) 6)
        ≡ thread 2 ∷ thread 5 ∷ [] }
    ensures all_ended { live (threads ((1, ended_thread 1 (pos 0)) ∷ []) 6) ≡ [] }
{}

/// Policies and priorities, the old ones replied.
#[tactic(auto, unfolding(crate::specs::Computing::parts_words))]
pub fn policies_and_priorities()
    ensures prio { setprio (threads ((2, new_thread (thread 2) Rr 16 256) ∷ []) 5) (pos 2) (pos 31)
        ≡ record { reply = reply.Value (pos 16); threads = threads ((2, new_thread (thread 2) Rr 31 256) ∷ []) 5 } }
    ensures prio_none { (setprio (threads ((2, new_thread (thread 2) Rr 16 256) ∷ []) 5) (pos 3) (pos 99)).reply
        ≡ reply.Esrch }
    ensures prio_above { setprio (threads ((2, new_thread (thread 2) Rr 16 256) ∷ []) 5) (pos 2) (pos 32)
        ≡ record { reply = reply.Einval; threads = threads ((2, new_thread (thread 2) Rr 16 256) ∷ []) 5 } }
    ensures prio_below { (setprio (threads ((2, new_thread (thread 2) Rr 16 256) ∷ []) 5) (pos 2) (negsuc 0)).reply
        ≡ reply.Einval }
    ensures prio_ended { setprio (threads ((2, ended_thread 2 (pos 7)) ∷ []) 5) (pos 2) (pos 20)
        ≡ record {
          reply = reply.Value (pos 16);
          threads = threads ((2, record (ended_thread 2 (pos 7)) { prio = 20 }) ∷ []) 5;
        } }
    ensures read_prio { getprio (threads ((2, new_thread (thread 2) Rr 16 256) ∷ []) 5) (pos 2) ≡ reply.Value (pos 16) }
    ensures read_prio_none { getprio (threads ((2, new_thread (thread 2) Rr 16 256) ∷ []) 5) (pos 1) ≡ reply.Esrch }
    ensures scheduler { setscheduler (threads ((2, new_thread (thread 2) Rr 16 256) ∷ []) 5) (pos 2) Bg (pos 0)
        ≡ record { reply = reply.Value (pos 1); threads = threads ((2, new_thread (thread 2) Bg 0 256) ∷ []) 5 } }
    ensures scheduler_none { (setscheduler (threads ((2, new_thread (thread 2) Rr 16 256) ∷ []) 5) (pos 3) Bg
        (pos 99)).reply
        ≡ reply.Esrch }
    ensures scheduler_wrong { setscheduler (threads ((2, new_thread (thread 2) Rr 16 256) ∷ []) 5) (pos 2) Bg (pos 32)
        ≡ record { reply = reply.Einval; threads = threads ((2, new_thread (thread 2) Rr 16 256) ∷ []) 5 } }
    ensures read_scheduler { getscheduler (threads ((2, new_thread (thread 2) Bg 16 256) ∷ []) 5) (pos 2)
        ≡ reply.Value (pos 3) }
    ensures read_fifo { getscheduler (threads ((2, new_thread (thread 2) Fifo 16 256) ∷ []) 5) (pos 2)
        ≡ reply.Value (pos 0) }
    ensures read_fg { getscheduler (threads ((2, new_thread (thread 2) Fg 16 256) ∷ []) 5) (pos 2)
        ≡ reply.Value (pos 2) }
    ensures read_scheduler_none { getscheduler (threads ((2, new_thread (thread 2) Rr 16 256) ∷ []) 5) (pos 1)
        ≡ reply.Esrch }
{}
