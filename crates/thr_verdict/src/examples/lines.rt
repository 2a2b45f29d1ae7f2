//! Lines of a history: of whom they are, their numbers and their names.

ghost use Rattle.std.specs.Prelude.{◌≡◌, pos, negsuc, ◌∷◌, [], map, length, replicate, codes, None, Some, true, false};
ghost use Rattle.thr_values.specs.declared.call.Arg.TheVariants as arg;
ghost use Rattle.thr_values.specs.declared.call.CallWord.TheVariants as call;
ghost use Rattle.thr_values.specs.declared.exception.Exc.TheVariants.{Address, Status};
ghost use Rattle.thr_values.specs.declared.history.What.TheVariants as what;
ghost use Rattle.thr_values.specs.declared.reply.Reply.TheVariants as reply;
ghost use Rattle.thr_text.specs.Journals.{numbered_line};
ghost use Rattle.thr_verdict.specs.Places.{fits_32, fits_64, fits_signed};
ghost use Rattle.thr_verdict.specs.Samples.{AreOf, all_replies, at, calls, clock, four, minus_one, name_arg, named, number_arg, processors, threads, tid};

/// The ranges of numbers.
#[tactic(auto, unfolding(crate::specs::Computing::verdict_words))]
pub fn ranges()
    ensures of_32_bits { map fits_32 (0 ∷ 4294967295 ∷ 4294967296 ∷ []) ≡ true ∷ true ∷ false ∷ [] }
    ensures of_64_bits { map fits_64 (0 ∷ 18446744073709551615 ∷ 18446744073709551616 ∷ []) ≡ true ∷ true ∷ false ∷ [] }
    ensures signed { map fits_signed
        (pos 9223372036854775807 ∷ pos 9223372036854775808 ∷ negsuc 9223372036854775807 ∷ negsuc 9223372036854775808 ∷ [])
        ≡ true ∷ false ∷ true ∷ false ∷ [] }
{}

/// A timed wait in the millionth line, with names of 24 bytes and the longest number, and with its LF.
#[tactic(auto, unfolding(crate::specs::Computing::verdict_words))]
pub fn longest_line()
    ensures { length (numbered_line (replicate 2 (codes "a_name_of_24_letters_abc")) 1000000
        (calls 1000000 call.CondTimedwait (name_arg (named 0) ∷ name_arg (named 1) ∷ arg.Num (negsuc 9223372036854775807) ∷ []) reply.Blocks))
        ≡ 120 }
{}

/// Each kind of line is of a processor, of the clock or of a thread alone.
#[tactic(auto, unfolding(crate::specs::Computing::verdict_words))]
pub fn of_whom_lines_are()
    ensures run { AreOf processors (what.Run (tid 0) ∷ what.Run (tid 4294967295) ∷ []) }
    ensures clock { AreOf clock (what.Clock (pos 5) ∷ what.Clock minus_one ∷ []) }
    ensures thread { AreOf threads
        (what.Call call.MutexLock (four (name_arg (named 13) ∷ [])) reply.Done
        ∷ what.Ret reply.Done
        ∷ what.Gift None
        ∷ what.Gift (Some (named 13))
        ∷ what.Say (pos 5)
        ∷ what.Set (at 0) (pos 5)
        ∷ what.If (at 4294967295) (pos 5)
        ∷ what.While (at 1) (pos 5)
        ∷ what.CallAt (at 1) (pos 5)
        ∷ what.Return (at 1) minus_one
        ∷ what.Raise 0 (Address (named 0))
        ∷ what.Raise 1 (Address (named 11))
        ∷ what.Raise 1 (Address (named 12))
        ∷ what.Reraise 1 (Status minus_one)
        ∷ what.Deliver 1 (at 1)
        ∷ what.Exit 1 (pos 5)
        ∷ what.Try 1 (at 1)
        ∷ what.Endtry 0
        ∷ what.Catch 1 1 (at 1)
        ∷ what.Endcatch 1
        ∷ what.Finally 1 0
        ∷ what.Endfin 1
        ∷ what.Once 1 (named 18)
        ∷ what.Done 1
        ∷ what.Undone 1 1
        ∷ what.Destroy 1 (named 17) (pos 5)
        ∷ what.Enddes 1
        ∷ what.Lost 1 1
        ∷ what.Bottom 1 minus_one
        ∷ what.Pause
        ∷ what.End minus_one
        ∷ []) }
{}

/// Dispatches, moves of the clock, calls, gifts and statements, with each of their places spoiled.
#[tactic(auto, unfolding(crate::specs::Computing::verdict_words))]
pub fn spoiled_statements()
    ensures { AreOf []
        (what.Run (tid 4294967296)
        ∷ what.Clock (pos 9223372036854775808)
        ∷ what.Clock (negsuc 9223372036854775808)
        ∷ what.Call call.Yield (four (number_arg 5 ∷ [])) reply.Done
        ∷ what.Call call.Yield (four []) (reply.Value (pos 9223372036854775808))
        ∷ what.Ret (reply.Value (negsuc 9223372036854775808))
        ∷ what.Gift (Some (named 14))
        ∷ what.Gift (Some (named 0))
        ∷ what.Gift (Some (named 21))
        ∷ what.Say (pos 9223372036854775808)
        ∷ what.Set (at 4294967296) (pos 5)
        ∷ what.Set (at 1) (pos 9223372036854775808)
        ∷ what.If (at 4294967296) (pos 5)
        ∷ what.If (at 1) (pos 9223372036854775808)
        ∷ what.While (at 4294967296) (pos 5)
        ∷ what.While (at 1) (pos 9223372036854775808)
        ∷ what.CallAt (at 4294967296) (pos 5)
        ∷ what.CallAt (at 1) (pos 9223372036854775808)
        ∷ what.Return (at 4294967296) (pos 5)
        ∷ what.Return (at 1) (pos 9223372036854775808)
        ∷ []) }
{}

/// Unwindings that begin, with each of their places spoiled.
#[tactic(auto, unfolding(crate::specs::Computing::verdict_words))]
pub fn spoiled_unwindings()
    ensures { AreOf []
        (what.Raise 18446744073709551616 (Address (named 0))
        ∷ what.Raise 1 (Address (named 13))
        ∷ what.Raise 1 (Address (named 10))
        ∷ what.Raise 1 (Address (named 21))
        ∷ what.Raise 1 (Status (negsuc 9223372036854775808))
        ∷ what.Reraise 18446744073709551616 (Address (named 0))
        ∷ what.Reraise 1 (Address (named 20))
        ∷ what.Reraise 1 (Status (pos 9223372036854775808))
        ∷ what.Deliver 18446744073709551616 (at 1)
        ∷ what.Deliver 1 (at 4294967296)
        ∷ what.Exit 18446744073709551616 (pos 5)
        ∷ what.Exit 1 (pos 9223372036854775808)
        ∷ []) }
{}

/// Scopes and ends, with each of their places spoiled.
#[tactic(auto, unfolding(crate::specs::Computing::verdict_words))]
pub fn spoiled_scopes()
    ensures { AreOf []
        (what.Try 18446744073709551616 (at 1)
        ∷ what.Try 1 (at 4294967296)
        ∷ what.Endtry 18446744073709551616
        ∷ what.Catch 18446744073709551616 1 (at 1)
        ∷ what.Catch 1 18446744073709551616 (at 1)
        ∷ what.Catch 1 1 (at 4294967296)
        ∷ what.Endcatch 18446744073709551616
        ∷ what.Finally 18446744073709551616 1
        ∷ what.Finally 1 18446744073709551616
        ∷ what.Endfin 18446744073709551616
        ∷ what.Once 18446744073709551616 (named 18)
        ∷ what.Once 1 (named 17)
        ∷ what.Once 1 (named 20)
        ∷ what.Done 18446744073709551616
        ∷ what.Undone 18446744073709551616 1
        ∷ what.Undone 1 18446744073709551616
        ∷ what.Destroy 18446744073709551616 (named 17) (pos 5)
        ∷ what.Destroy 1 (named 18) (pos 5)
        ∷ what.Destroy 1 (named 17) (pos 9223372036854775808)
        ∷ what.Enddes 18446744073709551616
        ∷ what.Lost 18446744073709551616 1
        ∷ what.Lost 1 18446744073709551616
        ∷ what.Bottom 18446744073709551616 (pos 5)
        ∷ what.Bottom 1 (negsuc 9223372036854775808)
        ∷ what.End (pos 9223372036854775808)
        ∷ []) }
{}

/// Every call and every return may have every reply.
#[tactic(auto, unfolding(crate::specs::Computing::verdict_words))]
pub fn replies()
    ensures calls { AreOf threads (map (λ r. what.Call call.Yield (four []) r) all_replies) }
    ensures returns { AreOf threads (map (λ r. what.Ret r) all_replies) }
{}
