//! Lines of statements and clauses.

ghost use Rattle.std.specs.Prelude.{[], ◌∷◌, None, Some};
ghost use Rattle.thr_examples.specs.Lines.{AreJudged};

/// Statements that open no block.
#[tactic(auto, unfolding(thr_text::specs::Computing::text_words))]
pub fn values_and_jumps()
    ensures set { AreJudged
        (("set v 1", None) ∷ ("set v + v 1", None)
        ∷ ("set 5 1", Some 6) ∷ ("set self 1", Some 6) ∷ ("set v this", Some 6)
        ∷ ("set", Some 7) ∷ ("set v", Some 7) ∷ ("set v 1 2", Some 7)
        ∷ []) }
    ensures say { AreJudged
        (("say a", None) ∷ ("say -7", None)
        ∷ ("say this", Some 6) ∷ ("say none", Some 6)
        ∷ ("say", Some 7) ∷ ("say 1 2", Some 7)
        ∷ []) }
    ensures raise { AreJudged
        (("raise e", None) ∷ ("raise cancel_e", None)
        ∷ ("raise 5", Some 6) ∷ ("raise default", Some 6) ∷ ("raise this", Some 6)
        ∷ ("raise", Some 7) ∷ ("raise e f", Some 7)
        ∷ []) }
    ensures reraise { AreJudged
        (("reraise", None)
        ∷ ("reraise e", Some 7) ∷ ("reraise 1", Some 7)
        ∷ []) }
    ensures call { AreJudged
        (("call r 1", None) ∷ ("call r 1 v", None) ∷ ("call r + 1 2 v", None) ∷ ("call r + 1 v", None)
        ∷ ("call 5 1", Some 6) ∷ ("call none 1", Some 6) ∷ ("call r this", Some 6) ∷ ("call r 1 5", Some 6) ∷ ("call r 1 this", Some 6)
        ∷ ("call", Some 7) ∷ ("call r", Some 7) ∷ ("call r + 1", Some 7) ∷ ("call r 1 v v", Some 7)
        ∷ []) }
    ensures return_line { AreJudged
        (("return 0", None)
        ∷ ("return this", Some 6)
        ∷ ("return", Some 7) ∷ ("return 0 0", Some 7)
        ∷ []) }
    ensures exit { AreJudged
        (("pthread_exit 0", None)
        ∷ ("pthread_exit end", Some 6)
        ∷ ("pthread_exit", Some 7) ∷ ("pthread_exit 0 0", Some 7)
        ∷ []) }
{}

/// Lines that open, part or close a block.
#[tactic(auto, unfolding(thr_text::specs::Computing::text_words))]
pub fn blocks_and_clauses()
    ensures if_line { AreJudged
        (("if a", None) ∷ ("if == a 0", None)
        ∷ ("if = a 0", Some 6) ∷ ("if this", Some 6)
        ∷ ("if", Some 7) ∷ ("if 1 2", Some 7)
        ∷ []) }
    ensures else_line { AreJudged
        (("else", None)
        ∷ ("else 1", Some 7) ∷ ("else if", Some 7)
        ∷ []) }
    ensures while_line { AreJudged
        (("while < i 10", None)
        ∷ ("while this", Some 6) ∷ ("while < i default", Some 6)
        ∷ ("while", Some 7) ∷ ("while < i", Some 7) ∷ ("while < i 10 10", Some 7)
        ∷ []) }
    ensures try_line { AreJudged
        (("try", None)
        ∷ ("try x", Some 7) ∷ ("try try", Some 7)
        ∷ []) }
    ensures catch { AreJudged
        (("catch e", None) ∷ ("catch intdiv_e", None)
        ∷ ("catch 5", Some 6) ∷ ("catch default", Some 6) ∷ ("catch this", Some 6)
        ∷ ("catch", Some 7) ∷ ("catch e f", Some 7)
        ∷ []) }
    ensures catch_all { AreJudged
        (("catch_all", None)
        ∷ ("catch_all e", Some 7) ∷ ("catch_all 0", Some 7)
        ∷ []) }
    ensures finally { AreJudged
        (("finally", None)
        ∷ ("finally e", Some 7) ∷ ("finally finally", Some 7)
        ∷ []) }
    ensures endtry { AreJudged
        (("endtry", None)
        ∷ ("endtry 1", Some 7) ∷ ("endtry endtry", Some 7)
        ∷ []) }
    ensures end_line { AreJudged
        (("end", None)
        ∷ ("end 1", Some 7) ∷ ("end main", Some 7)
        ∷ []) }
{}

/// Words that begin no line but the first.
#[tactic(auto, unfolding(thr_text::specs::Computing::text_words))]
pub fn no_first_words()
    ensures first { AreJudged
        (("7", Some 6) ∷ ("x", Some 6) ∷ ("x 1", Some 6) ∷ ("+ 1 2", Some 6) ∷ ("dcethr 1", Some 6) ∷ ("this", Some 6) ∷ ("self", Some 6) ∷ ("global", Some 6) ∷ ("SCHED_FIFO", Some 6) ∷ ("End", Some 6) ∷ ("say_ 1", Some 6) ∷ ("pthread_frobnicate", Some 6)
        ∷ []) }
{}
