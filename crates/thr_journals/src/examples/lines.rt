//! Lines of histories and their texts.

ghost use Rattle.std.specs.Prelude.{◌≡◌, pos, negsuc, ◌∷◌, [], map, codes, None, Some};
ghost use Rattle.thr_values.specs.declared.call.Arg.TheVariants as arg;
ghost use Rattle.thr_values.specs.declared.call.CallWord.TheVariants as call_word;
ghost use Rattle.thr_values.specs.declared.exception.Exc.TheVariants.{Address, Status};
ghost use Rattle.thr_values.specs.declared.history.Who.TheVariants as who;
ghost use Rattle.thr_values.specs.declared.history.What.TheVariants as what;
ghost use Rattle.thr_values.specs.declared.reply.Effect.TheVariants as effect;
ghost use Rattle.thr_values.specs.declared.reply.Reply.TheVariants as reply;
ghost use Rattle.thr_values.specs.declared.event.Stop.TheVariants as stops;
ghost use Rattle.thr_journals.specs.Lines.{Stopped, below};
ghost use Rattle.thr_journals.specs.Samples.{AreReadAgain, HaveNoForm, at, call, named, names, thread, tid};

/// The texts of lines that aren't calls are read as these lines.
#[tactic(auto, unfolding(crate::specs::Computing::journal_words))]
pub fn lines_are_read_again()
    ensures machine { AreReadAgain 1 (record { who = who.Proc 15; what = what.Run (tid 0) } ∷ record { who = who.Clock; what = what.Clock (negsuc 0) } ∷ []) }
    ensures threads { AreReadAgain 1000000 (map thread
        (what.Ret reply.Blocks
        ∷ what.Gift None
        ∷ what.Gift (Some (named 10))
        ∷ what.Say (negsuc 6)
        ∷ what.Set (at 0) (pos 5)
        ∷ what.If (at 4294967295) (pos 5)
        ∷ what.While (at 1) (pos 5)
        ∷ what.CallAt (at 1) (pos 5)
        ∷ what.Return (at 1) (negsuc 0)
        ∷ what.Raise 0 (Address (named 0))
        ∷ what.Raise 1 (Address (named 17))
        ∷ what.Reraise 1 (Address (named 18))
        ∷ what.Reraise 18446744073709551615 (Status (negsuc 0))
        ∷ what.Deliver 1 (at 1)
        ∷ what.Exit 1 (pos 5)
        ∷ what.Try 1 (at 1)
        ∷ what.Endtry 0
        ∷ what.Catch 1 2 (at 3)
        ∷ what.Endcatch 1
        ∷ what.Finally 1 0
        ∷ what.Endfin 1
        ∷ what.Once 1 (named 15)
        ∷ what.Done 1
        ∷ what.Undone 1 2
        ∷ what.Destroy 1 (named 14) (pos 5)
        ∷ what.Enddes 1
        ∷ what.Lost 1 2
        ∷ what.Bottom 1 (negsuc 1)
        ∷ what.Pause
        ∷ what.End (pos 0)
        ∷ [])) }
{}

/// The texts of replies are read as these replies.
#[tactic(auto, unfolding(crate::specs::Computing::journal_words))]
pub fn replies_are_read_again()
    ensures { AreReadAgain 2 (map (λ r. thread (what.Ret r))
        (reply.Done ∷ reply.Value (pos 0) ∷ reply.Value (negsuc 9223372036854775807) ∷ reply.Eof ∷ reply.Effect effect.Ended ∷ reply.Effect effect.Merged
        ∷ reply.Effect effect.Pending ∷ reply.Effect effect.Wakes ∷ reply.Blocks ∷ reply.Einval ∷ reply.Eperm ∷ reply.Edeadlk ∷ reply.Ebusy ∷ reply.Esrch
        ∷ reply.Eagain ∷ reply.Epipe ∷ [])) }
{}

/// The texts of calls are read as these calls.
#[tactic(auto, unfolding(crate::specs::Computing::journal_words))]
pub fn calls_are_read_again()
    ensures { AreReadAgain 3
        (call call_word.AttrSetsched (arg.Name (named 12) ∷ arg.Word 3 ∷ [])
        ∷ call call_word.AttrSetinheritsched (arg.Name (named 12) ∷ arg.Word 1 ∷ [])
        ∷ call call_word.Create (arg.Word 0 ∷ arg.Name (named 20) ∷ arg.Num (negsuc 0) ∷ [])
        ∷ call call_word.Create (arg.Name (named 12) ∷ arg.Name (named 20) ∷ arg.Num (pos 4) ∷ [])
        ∷ call call_word.Yield []
        ∷ call call_word.Setcancel (arg.Word 0 ∷ [])
        ∷ call call_word.Setscheduler (arg.Num (pos 1) ∷ arg.Word 2 ∷ arg.Num (pos 31) ∷ [])
        ∷ call call_word.MutexattrSetkindNp (arg.Name (named 13) ∷ arg.Word 2 ∷ [])
        ∷ call call_word.MutexInit (arg.Name (named 10) ∷ arg.Word 0 ∷ [])
        ∷ call call_word.MutexTrylock (arg.Name (named 10) ∷ [])
        ∷ call call_word.CondTimedwait (arg.Name (named 11) ∷ arg.Name (named 10) ∷ arg.Num (pos 20) ∷ [])
        ∷ call call_word.Once (arg.Name (named 15) ∷ arg.Name (named 20) ∷ [])
        ∷ call call_word.Keycreate (arg.Name (named 14) ∷ arg.Word 0 ∷ [])
        ∷ call call_word.Read (arg.Name (named 16) ∷ [])
        ∷ call call_word.Close (arg.Name (named 16) ∷ [])
        ∷ []) }
{}

/// The stop line.
#[tactic(auto, unfolding(crate::specs::Computing::journal_words))]
pub fn stop_lines()
    ensures stops { map (λ t. below names (codes t)) ("stop finished" ∷ "stop deadlock 0 t4294967295" ∷ "stop limit" ∷ "stop memory" ∷ [])
        ≡ map (λ s. Some (Stopped s)) (stops.Finished ∷ stops.Deadlock 0 (tid 4294967295) ∷ stops.Limit ∷ stops.Memory ∷ []) }
    ensures others { HaveNoForm
        ("stop" ∷ "stop " ∷ "stop  finished" ∷ "stop finished " ∷ "stop finishe" ∷ "stop deadlock" ∷ "stop deadlock 1" ∷ "stop deadlock 1 1" ∷ "stop deadlock 01 t1"
        ∷ "stop deadlock 4294967296 t1" ∷ "stop limit 3" ∷ " stop limit" ∷ []) }
{}

/// Numbers in another form, a blank too many or too few, and what isn't of the kind of its line.
#[tactic(auto, unfolding(crate::specs::Computing::journal_words))]
pub fn misshapen_lines()
    ensures numbers { HaveNoForm
        ("01 t1 say 7" ∷ "-1 t1 say 7" ∷ "x t1 say 7" ∷ "1 t01 say 7" ∷ "1 t say 7" ∷ "1 t4294967296 say 7" ∷ "1 t1 say -0" ∷ "1 t1 say 07" ∷ "1 t1 say +7"
        ∷ "1 t1 say 9223372036854775808" ∷ "1 t1 set 4294967296 5" ∷ "1 t1 endtry -1" ∷ "1 t1 endtry 18446744073709551616" ∷ []) }
    ensures blanks { HaveNoForm
        ("" ∷ "1" ∷ "1 " ∷ "1 t1" ∷ "1 t1 " ∷ " 1 t1 pause" ∷ "1  t1 pause" ∷ "1 t1  pause" ∷ "1 t1 pause " ∷ "1 t1 say" ∷ "1 t1 say 7 8" ∷ "1 t1 set 3" ∷ []) }
    ensures who { HaveNoForm
        ("1 p0 say 7" ∷ "1 t1 run t2" ∷ "1 p0 run 1" ∷ "1 clock" ∷ "1 clock 5 6" ∷ "1 clock run t1" ∷ "1 p0 clock 5" ∷ "1 q0 run t1" ∷ "1 p0 run p1" ∷ []) }
{}

/// Names of another kind, unknown words, and calls with other places.
#[tactic(auto, unfolding(crate::specs::Computing::journal_words))]
pub fn misnamed_lines()
    ensures kinds { HaveNoForm
        ("1 t1 gift c" ∷ "1 t1 gift z" ∷ "1 t1 raise 1 m" ∷ "1 t1 raise 1 main" ∷ "1 t1 raise 1 status" ∷ "1 t1 raise 1 5" ∷ "1 t1 once 1 k" ∷ "1 t1 destroy 1 o 5"
        ∷ "1 t1 pthread_mutex_lock c = ok" ∷ "1 t1 pthread_cond_wait m c = ok" ∷ "1 t1 pthread_mutex_init m f = ok" ∷ "1 t1 pthread_keycreate k default = ok" ∷ []) }
    ensures words { HaveNoForm
        ("1 t1 sai 7" ∷ "1 t1 ret ok" ∷ "1 t1 ret = fine" ∷ "1 t1 ret =" ∷ "1 t1 pthread_yield" ∷ "1 t1 pthread_yield = " ∷ "1 t1 pthread_yield 1 = ok"
        ∷ "1 t1 pthread_join 2 v = 5" ∷ "1 t1 pthread_setcancel on = 0" ∷ "1 t1 else" ∷ []) }
{}
