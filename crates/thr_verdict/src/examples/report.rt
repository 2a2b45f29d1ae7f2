//! Reports: each count with a line that changes it, and whole reports.

ghost use Rattle.std.specs.Prelude.{◌≡◌, pos, negsuc, ◌∷◌, [], None, Some};
ghost use Rattle.thr_values.specs.Exceptions.{cancel_e, in_use_e};
ghost use Rattle.thr_values.specs.declared.call.Arg.TheVariants as arg;
ghost use Rattle.thr_values.specs.declared.call.CallWord.TheVariants as call;
ghost use Rattle.thr_values.specs.declared.event.Stop.TheVariants as stops;
ghost use Rattle.thr_values.specs.declared.exception.Exc.TheVariants.{Status};
ghost use Rattle.thr_values.specs.declared.history.What.TheVariants as what;
ghost use Rattle.thr_values.specs.declared.reply.Reply.TheVariants as reply;
ghost use Rattle.thr_syntax.specs.Canon.{canon};
ghost use Rattle.thr_text.specs.Journals.{numbered};
ghost use Rattle.thr_verdict.specs.Report.{report_text};
ghost use Rattle.thr_verdict.specs.Samples.{at, c, calls, cancelled_wait, cancelled_wait_lines, dispatch, k, lines_text, m, minus_one, name_arg, number_arg, seven, seven_lines, tallies, tally, thread, tid, two_mutexes, waiter};

/// A cancelled wait whose mutex the canceller holds: its script, its history and its report.
#[tactic(auto, unfolding(crate::specs::Computing::verdict_words))]
pub fn cancelled_wait_is_reported()
    ensures script { canon cancelled_wait ≡ lines_text
        ("dcethr 1"
        ∷ "mutex m"
        ∷ "cond c"
        ∷ "shared t 0"
        ∷ "routine waiter a"
        ∷ "pthread_mutex_lock m"
        ∷ "try"
        ∷ "pthread_cond_wait c m"
        ∷ "finally"
        ∷ "pthread_mutex_unlock m"
        ∷ "endtry"
        ∷ "end"
        ∷ "routine main a"
        ∷ "local v"
        ∷ "pthread_mutex_init m default"
        ∷ "pthread_cond_init c"
        ∷ "pthread_create t default waiter 0"
        ∷ "pthread_yield"
        ∷ "pthread_mutex_lock m"
        ∷ "pthread_cancel t"
        ∷ "pthread_mutex_unlock m"
        ∷ "pthread_join t v"
        ∷ "say v"
        ∷ "end"
        ∷ []) }
    ensures history { numbered cancelled_wait.names 1 cancelled_wait_lines ≡ lines_text
        ("1 p0 run t1"
        ∷ "2 t1 pthread_mutex_init m default = ok"
        ∷ "3 t1 pthread_cond_init c = ok"
        ∷ "4 t1 pthread_create default waiter 0 = 2"
        ∷ "5 t1 pthread_yield = ok"
        ∷ "6 p0 run t2"
        ∷ "7 t2 pthread_mutex_lock m = ok"
        ∷ "8 t2 try 1 7"
        ∷ "9 t2 pthread_cond_wait c m = blocks"
        ∷ "10 p0 run t1"
        ∷ "11 t1 pthread_mutex_lock m = ok"
        ∷ "12 t1 pthread_cancel 2 = wakes"
        ∷ "13 t1 pthread_mutex_unlock m = ok"
        ∷ "14 t2 gift m"
        ∷ "15 t1 pthread_join 2 = blocks"
        ∷ "16 p0 run t2"
        ∷ "17 t2 deliver 1 8"
        ∷ "18 t2 finally 1 1"
        ∷ "19 t2 pthread_mutex_unlock m = ok"
        ∷ "20 t2 endfin 1"
        ∷ "21 t2 bottom 1 -1"
        ∷ "22 t2 end -1"
        ∷ "23 p0 run t1"
        ∷ "24 t1 ret = -1"
        ∷ "25 t1 say -1"
        ∷ "26 t1 end 0"
        ∷ []) }
    ensures report { report_text cancelled_wait cancelled_wait_lines stops.Finished ≡ lines_text
        ("lines 26"
        ∷ "threads 2"
        ∷ "ended 2"
        ∷ "calls 11"
        ∷ "blocked 2"
        ∷ "raised 0"
        ∷ "delivered 1"
        ∷ "caught 0"
        ∷ "mutex m 3"
        ∷ "stop finished"
        ∷ []) }
{}

/// Scripts without a mutex, no lines, and each stop.
#[tactic(auto, unfolding(crate::specs::Computing::verdict_words))]
pub fn short_reports()
    ensures seven { report_text seven seven_lines stops.Finished ≡ lines_text
        ("lines 3" ∷ "threads 1" ∷ "ended 1" ∷ "calls 0" ∷ "blocked 0" ∷ "raised 0" ∷ "delivered 0" ∷ "caught 0"
        ∷ "stop finished" ∷ []) }
    ensures memory { report_text seven [] stops.Memory ≡ lines_text
        ("lines 0" ∷ "threads 1" ∷ "ended 0" ∷ "calls 0" ∷ "blocked 0" ∷ "raised 0" ∷ "delivered 0" ∷ "caught 0"
        ∷ "stop memory" ∷ []) }
    ensures limit { report_text seven (dispatch 1 ∷ []) stops.Limit ≡ lines_text
        ("lines 1" ∷ "threads 1" ∷ "ended 0" ∷ "calls 0" ∷ "blocked 0" ∷ "raised 0" ∷ "delivered 0" ∷ "caught 0"
        ∷ "stop limit" ∷ []) }
    ensures deadlock { report_text two_mutexes
        (dispatch 1
        ∷ calls 1 call.MutexLock (name_arg k ∷ []) reply.Done
        ∷ calls 1 call.MutexTrylock (name_arg m ∷ []) (reply.Value (pos 1))
        ∷ calls 1 call.MutexLock (name_arg k ∷ []) reply.Blocks
        ∷ thread 2 (what.Gift (Some m))
        ∷ [])
        (stops.Deadlock 1 (tid 1))
        ≡ lines_text
        ("lines 5" ∷ "threads 1" ∷ "ended 0" ∷ "calls 3" ∷ "blocked 1" ∷ "raised 0" ∷ "delivered 0" ∷ "caught 0"
        ∷ "mutex m 2" ∷ "mutex k 1" ∷ "stop deadlock 1 t1" ∷ []) }
{}

/// One line each, of calls: lines, threads, ended, calls, blocked, raised, delivered, caught, and the two mutexes.
#[tactic(auto, unfolding(crate::specs::Computing::verdict_words))]
pub fn counted_calls()
    ensures none { tally [] ≡ 0 ∷ 1 ∷ 0 ∷ 0 ∷ 0 ∷ 0 ∷ 0 ∷ 0 ∷ 0 ∷ 0 ∷ [] }
    ensures created { tallies
        (calls 1 call.Create (arg.Word 0 ∷ name_arg waiter ∷ number_arg 0 ∷ []) (reply.Value (pos 2)) ∷ [])
        ≡ (1 ∷ 2 ∷ 0 ∷ 1 ∷ 0 ∷ 0 ∷ 0 ∷ 0 ∷ 0 ∷ 0 ∷ []) ∷ [] }
    ensures counted_as_calls_alone { tallies
        (calls 1 call.Create (arg.Word 0 ∷ name_arg waiter ∷ number_arg 0 ∷ []) reply.Eagain
        ∷ calls 1 call.Create (arg.Word 0 ∷ name_arg waiter ∷ number_arg 0 ∷ []) reply.Done
        ∷ calls 1 call.Join (number_arg 2 ∷ []) (reply.Value (pos 3))
        ∷ calls 1 call.MutexInit (name_arg m ∷ arg.Word 0 ∷ []) reply.Done
        ∷ calls 1 call.MutexUnlock (name_arg m ∷ []) reply.Done
        ∷ calls 1 call.MutexDestroy (name_arg m ∷ []) reply.Done
        ∷ calls 1 call.LockGlobalNp [] reply.Done
        ∷ calls 1 call.MutexLock (name_arg m ∷ []) reply.Edeadlk
        ∷ calls 1 call.MutexLock (name_arg m ∷ []) (reply.Value (pos 1))
        ∷ calls 1 call.MutexTrylock (name_arg m ∷ []) (reply.Value (pos 0))
        ∷ calls 1 call.MutexTrylock (name_arg m ∷ []) (reply.Value (pos 2))
        ∷ calls 1 call.MutexTrylock (name_arg m ∷ []) (reply.Value minus_one)
        ∷ calls 1 call.MutexTrylock (name_arg m ∷ []) (reply.Value (negsuc 1))
        ∷ calls 1 call.MutexTrylock (name_arg m ∷ []) reply.Done
        ∷ calls 1 call.CondWait (name_arg c ∷ name_arg m ∷ []) reply.Eperm
        ∷ [])
        ≡ (1 ∷ 1 ∷ 0 ∷ 1 ∷ 0 ∷ 0 ∷ 0 ∷ 0 ∷ 0 ∷ 0 ∷ [])
        ∷ (1 ∷ 1 ∷ 0 ∷ 1 ∷ 0 ∷ 0 ∷ 0 ∷ 0 ∷ 0 ∷ 0 ∷ [])
        ∷ (1 ∷ 1 ∷ 0 ∷ 1 ∷ 0 ∷ 0 ∷ 0 ∷ 0 ∷ 0 ∷ 0 ∷ [])
        ∷ (1 ∷ 1 ∷ 0 ∷ 1 ∷ 0 ∷ 0 ∷ 0 ∷ 0 ∷ 0 ∷ 0 ∷ [])
        ∷ (1 ∷ 1 ∷ 0 ∷ 1 ∷ 0 ∷ 0 ∷ 0 ∷ 0 ∷ 0 ∷ 0 ∷ [])
        ∷ (1 ∷ 1 ∷ 0 ∷ 1 ∷ 0 ∷ 0 ∷ 0 ∷ 0 ∷ 0 ∷ 0 ∷ [])
        ∷ (1 ∷ 1 ∷ 0 ∷ 1 ∷ 0 ∷ 0 ∷ 0 ∷ 0 ∷ 0 ∷ 0 ∷ [])
        ∷ (1 ∷ 1 ∷ 0 ∷ 1 ∷ 0 ∷ 0 ∷ 0 ∷ 0 ∷ 0 ∷ 0 ∷ [])
        ∷ (1 ∷ 1 ∷ 0 ∷ 1 ∷ 0 ∷ 0 ∷ 0 ∷ 0 ∷ 0 ∷ 0 ∷ [])
        ∷ (1 ∷ 1 ∷ 0 ∷ 1 ∷ 0 ∷ 0 ∷ 0 ∷ 0 ∷ 0 ∷ 0 ∷ [])
        ∷ (1 ∷ 1 ∷ 0 ∷ 1 ∷ 0 ∷ 0 ∷ 0 ∷ 0 ∷ 0 ∷ 0 ∷ [])
        ∷ (1 ∷ 1 ∷ 0 ∷ 1 ∷ 0 ∷ 0 ∷ 0 ∷ 0 ∷ 0 ∷ 0 ∷ [])
        ∷ (1 ∷ 1 ∷ 0 ∷ 1 ∷ 0 ∷ 0 ∷ 0 ∷ 0 ∷ 0 ∷ 0 ∷ [])
        ∷ (1 ∷ 1 ∷ 0 ∷ 1 ∷ 0 ∷ 0 ∷ 0 ∷ 0 ∷ 0 ∷ 0 ∷ [])
        ∷ (1 ∷ 1 ∷ 0 ∷ 1 ∷ 0 ∷ 0 ∷ 0 ∷ 0 ∷ 0 ∷ 0 ∷ [])
        ∷ [] }
    ensures blocked { tallies
        (calls 1 call.MutexLock (name_arg m ∷ []) reply.Blocks
        ∷ calls 1 call.DelayNp (number_arg 5 ∷ []) reply.Blocks
        ∷ [])
        ≡ (1 ∷ 1 ∷ 0 ∷ 1 ∷ 1 ∷ 0 ∷ 0 ∷ 0 ∷ 0 ∷ 0 ∷ []) ∷ (1 ∷ 1 ∷ 0 ∷ 1 ∷ 1 ∷ 0 ∷ 0 ∷ 0 ∷ 0 ∷ 0 ∷ []) ∷ [] }
    ensures acquired { tallies
        (calls 1 call.MutexLock (name_arg m ∷ []) reply.Done
        ∷ calls 1 call.MutexLock (name_arg k ∷ []) reply.Done
        ∷ calls 1 call.MutexTrylock (name_arg m ∷ []) (reply.Value (pos 1))
        ∷ calls 1 call.MutexTrylock (name_arg k ∷ []) (reply.Value (pos 1))
        ∷ [])
        ≡ (1 ∷ 1 ∷ 0 ∷ 1 ∷ 0 ∷ 0 ∷ 0 ∷ 0 ∷ 1 ∷ 0 ∷ [])
        ∷ (1 ∷ 1 ∷ 0 ∷ 1 ∷ 0 ∷ 0 ∷ 0 ∷ 0 ∷ 0 ∷ 1 ∷ [])
        ∷ (1 ∷ 1 ∷ 0 ∷ 1 ∷ 0 ∷ 0 ∷ 0 ∷ 0 ∷ 1 ∷ 0 ∷ [])
        ∷ (1 ∷ 1 ∷ 0 ∷ 1 ∷ 0 ∷ 0 ∷ 0 ∷ 0 ∷ 0 ∷ 1 ∷ [])
        ∷ [] }
{}

/// The same of lines that are no calls.
#[tactic(auto, unfolding(crate::specs::Computing::verdict_words))]
pub fn counted_lines()
    ensures counted_as_lines_alone { tallies
        (dispatch 1
        ∷ thread 1 (what.Ret reply.Done)
        ∷ thread 1 (what.Ret reply.Blocks)
        ∷ thread 1 (what.Ret (reply.Value (pos 1)))
        ∷ thread 1 (what.CallAt (at 3) (pos 1))
        ∷ thread 1 (what.Exit 1 (pos 1))
        ∷ thread 1 (what.Finally 1 1)
        ∷ thread 1 (what.Endcatch 1)
        ∷ thread 1 (what.Endfin 1)
        ∷ thread 1 (what.Bottom 1 (pos 1))
        ∷ thread 1 what.Pause
        ∷ thread 1 (what.Gift None)
        ∷ [])
        ≡ (1 ∷ 1 ∷ 0 ∷ 0 ∷ 0 ∷ 0 ∷ 0 ∷ 0 ∷ 0 ∷ 0 ∷ [])
        ∷ (1 ∷ 1 ∷ 0 ∷ 0 ∷ 0 ∷ 0 ∷ 0 ∷ 0 ∷ 0 ∷ 0 ∷ [])
        ∷ (1 ∷ 1 ∷ 0 ∷ 0 ∷ 0 ∷ 0 ∷ 0 ∷ 0 ∷ 0 ∷ 0 ∷ [])
        ∷ (1 ∷ 1 ∷ 0 ∷ 0 ∷ 0 ∷ 0 ∷ 0 ∷ 0 ∷ 0 ∷ 0 ∷ [])
        ∷ (1 ∷ 1 ∷ 0 ∷ 0 ∷ 0 ∷ 0 ∷ 0 ∷ 0 ∷ 0 ∷ 0 ∷ [])
        ∷ (1 ∷ 1 ∷ 0 ∷ 0 ∷ 0 ∷ 0 ∷ 0 ∷ 0 ∷ 0 ∷ 0 ∷ [])
        ∷ (1 ∷ 1 ∷ 0 ∷ 0 ∷ 0 ∷ 0 ∷ 0 ∷ 0 ∷ 0 ∷ 0 ∷ [])
        ∷ (1 ∷ 1 ∷ 0 ∷ 0 ∷ 0 ∷ 0 ∷ 0 ∷ 0 ∷ 0 ∷ 0 ∷ [])
        ∷ (1 ∷ 1 ∷ 0 ∷ 0 ∷ 0 ∷ 0 ∷ 0 ∷ 0 ∷ 0 ∷ 0 ∷ [])
        ∷ (1 ∷ 1 ∷ 0 ∷ 0 ∷ 0 ∷ 0 ∷ 0 ∷ 0 ∷ 0 ∷ 0 ∷ [])
        ∷ (1 ∷ 1 ∷ 0 ∷ 0 ∷ 0 ∷ 0 ∷ 0 ∷ 0 ∷ 0 ∷ 0 ∷ [])
        ∷ (1 ∷ 1 ∷ 0 ∷ 0 ∷ 0 ∷ 0 ∷ 0 ∷ 0 ∷ 0 ∷ 0 ∷ [])
        ∷ [] }
    ensures ended { tallies (thread 1 (what.End (pos 0)) ∷ []) ≡ (1 ∷ 1 ∷ 1 ∷ 0 ∷ 0 ∷ 0 ∷ 0 ∷ 0 ∷ 0 ∷ 0 ∷ []) ∷ [] }
    ensures raised { tallies
        (thread 1 (what.Raise 1 in_use_e) ∷ thread 1 (what.Raise 1 (Status (pos 5))) ∷ thread 1 (what.Reraise 2 cancel_e) ∷ [])
        ≡ (1 ∷ 1 ∷ 0 ∷ 0 ∷ 0 ∷ 1 ∷ 0 ∷ 0 ∷ 0 ∷ 0 ∷ [])
        ∷ (1 ∷ 1 ∷ 0 ∷ 0 ∷ 0 ∷ 1 ∷ 0 ∷ 0 ∷ 0 ∷ 0 ∷ [])
        ∷ (1 ∷ 1 ∷ 0 ∷ 0 ∷ 0 ∷ 1 ∷ 0 ∷ 0 ∷ 0 ∷ 0 ∷ [])
        ∷ [] }
    ensures delivered { tallies (thread 1 (what.Deliver 1 (at 3)) ∷ [])
        ≡ (1 ∷ 1 ∷ 0 ∷ 0 ∷ 0 ∷ 0 ∷ 1 ∷ 0 ∷ 0 ∷ 0 ∷ []) ∷ [] }
    ensures caught { tallies (thread 1 (what.Catch 1 1 (at 3)) ∷ [])
        ≡ (1 ∷ 1 ∷ 0 ∷ 0 ∷ 0 ∷ 0 ∷ 0 ∷ 1 ∷ 0 ∷ 0 ∷ []) ∷ [] }
    ensures given { tallies (thread 1 (what.Gift (Some m)) ∷ thread 1 (what.Gift (Some k)) ∷ [])
        ≡ (1 ∷ 1 ∷ 0 ∷ 0 ∷ 0 ∷ 0 ∷ 0 ∷ 0 ∷ 1 ∷ 0 ∷ []) ∷ (1 ∷ 1 ∷ 0 ∷ 0 ∷ 0 ∷ 0 ∷ 0 ∷ 0 ∷ 0 ∷ 1 ∷ []) ∷ [] }
{}
