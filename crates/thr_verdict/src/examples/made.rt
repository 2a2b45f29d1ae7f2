//! Made scripts.

ghost use Rattle.std.specs.Prelude.{◌≡◌, ◌++◌, ◌+◌, ◌*◌, ◌/◌, ◌∷◌, [], map};
ghost use Rattle.thr_values.specs.Exceptions.{builtin_names};
ghost use Rattle.thr_syntax.specs.Canon.{canon};
ghost use Rattle.thr_text.specs.Reading.{Formed, faults, own_lines};
ghost use Rattle.thr_text.specs.Tables.{declarations};
ghost use Rattle.thr_verdict.specs.Made.{made, numbers_from, rounds, share};
ghost use Rattle.thr_verdict.specs.Samples.{lines_text, sum};

/// One worker, from the number 0.
#[tactic(auto, unfolding(crate::specs::Computing::verdict_words))]
pub fn made_of_0()
    ensures { canon (made 0 1) ≡ lines_text
        ("dcethr 1" ∷ "limit 1000000" ∷ "mutex m" ∷ "exception odd" ∷ "shared total 0" ∷ "shared caught 0"
        ∷ "routine w1 a" ∷ "local i" ∷ "set i 0" ∷ "while < i 80" ∷ "try"
        ∷ "pthread_mutex_lock m" ∷ "set total + total 11" ∷ "pthread_mutex_unlock m"
        ∷ "if == % i 7 0" ∷ "raise odd" ∷ "end" ∷ "catch odd"
        ∷ "pthread_mutex_lock m" ∷ "set caught + caught 1" ∷ "pthread_mutex_unlock m" ∷ "endtry"
        ∷ "set i + i 1" ∷ "end" ∷ "end"
        ∷ "routine main a" ∷ "local i" ∷ "local v" ∷ "pthread_mutex_init m default"
        ∷ "pthread_create v default w1 0"
        ∷ "set i 2" ∷ "while <= i 2" ∷ "pthread_join i v" ∷ "pthread_detach i" ∷ "set i + i 1" ∷ "end" ∷ "end"
        ∷ []) }
{}

/// One worker, from the number 1.
#[tactic(auto, unfolding(crate::specs::Computing::verdict_words))]
pub fn made_of_1()
    ensures { canon (made 1 1) ≡ lines_text
        ("dcethr 1" ∷ "limit 1000000" ∷ "mutex m" ∷ "exception odd" ∷ "shared total 0" ∷ "shared caught 0"
        ∷ "routine w1 a" ∷ "local i" ∷ "set i 0" ∷ "while < i 90" ∷ "try"
        ∷ "pthread_mutex_lock m" ∷ "set total + total 14" ∷ "pthread_mutex_unlock m"
        ∷ "if == % i 7 0" ∷ "raise odd" ∷ "end" ∷ "catch odd"
        ∷ "pthread_mutex_lock m" ∷ "set caught + caught 1" ∷ "pthread_mutex_unlock m" ∷ "endtry"
        ∷ "set i + i 1" ∷ "end" ∷ "end"
        ∷ "routine main a" ∷ "local i" ∷ "local v" ∷ "pthread_mutex_init m default"
        ∷ "pthread_create v default w1 0"
        ∷ "set i 2" ∷ "while <= i 2" ∷ "pthread_join i v" ∷ "pthread_detach i" ∷ "set i + i 1" ∷ "end" ∷ "end"
        ∷ []) }
{}

/// Two workers, from the greatest number.
#[tactic(auto, unfolding(crate::specs::Computing::verdict_words))]
pub fn made_of_the_greatest()
    ensures { canon (made 4294967295 2) ≡ lines_text
        ("dcethr 1" ∷ "limit 1000000" ∷ "mutex m" ∷ "exception odd" ∷ "shared total 0" ∷ "shared caught 0"
        ∷ "routine w1 a" ∷ "local i" ∷ "set i 0" ∷ "while < i 30" ∷ "try"
        ∷ "pthread_mutex_lock m" ∷ "set total + total 96" ∷ "pthread_mutex_unlock m"
        ∷ "if == % i 7 0" ∷ "raise odd" ∷ "end" ∷ "catch odd"
        ∷ "pthread_mutex_lock m" ∷ "set caught + caught 1" ∷ "pthread_mutex_unlock m" ∷ "endtry"
        ∷ "set i + i 1" ∷ "end" ∷ "end"
        ∷ "routine w2 a" ∷ "local i" ∷ "set i 0" ∷ "while < i 100" ∷ "try"
        ∷ "pthread_mutex_lock m" ∷ "set total + total 7" ∷ "pthread_mutex_unlock m"
        ∷ "if == % i 7 0" ∷ "raise odd" ∷ "end" ∷ "catch odd"
        ∷ "pthread_mutex_lock m" ∷ "set caught + caught 1" ∷ "pthread_mutex_unlock m" ∷ "endtry"
        ∷ "set i + i 1" ∷ "end" ∷ "end"
        ∷ "routine main a" ∷ "local i" ∷ "local v" ∷ "pthread_mutex_init m default"
        ∷ "pthread_create v default w1 0" ∷ "pthread_create v default w2 0"
        ∷ "set i 2" ∷ "while <= i 3" ∷ "pthread_join i v" ∷ "pthread_detach i" ∷ "set i + i 1" ∷ "end" ∷ "end"
        ∷ []) }
{}

/// Rounds and shares of eight workers and of the last of sixty-four, and what the eight add and catch in all.
#[tactic(auto, unfolding(crate::specs::Computing::verdict_words))]
pub fn rounds_and_shares()
    ensures rounds { map (rounds 1) (numbers_from 1 8) ≡ 90 ∷ 160 ∷ 230 ∷ 300 ∷ 370 ∷ 440 ∷ 10 ∷ 80 ∷ [] }
    ensures shares { map (share 1) (numbers_from 1 8) ≡ 14 ∷ 25 ∷ 36 ∷ 47 ∷ 58 ∷ 69 ∷ 80 ∷ 91 ∷ [] }
    ensures total { sum (map (λ i. rounds 1 i * share 1 i) (numbers_from 1 8)) ≡ 87540 }
    ensures caught { sum (map (λ i. (rounds 1 i + 6) / 7) (numbers_from 1 8)) ≡ 242 }
    ensures last_rounds { rounds 0 64 ≡ 490 }
    ensures last_share { share 0 64 ≡ 4 }
    ensures nobody { numbers_from 1 0 ≡ [] }
{}

/// Made scripts keep the rules, with one worker and with two.
#[tactic(auto, unfolding(crate::specs::Computing::verdict_words))]
pub fn made_scripts_keep_the_rules()
    ensures one { Formed (made 0 1) }
    ensures two { Formed (made 4294967295 2) }
{}

/// The texts of larger ones have no fault, and their names stand in the order of their declarations.
#[tactic(auto, unfolding(crate::specs::Computing::verdict_words))]
pub fn larger_made_scripts()
    ensures eight { faults (canon (made 1 8)) ≡ [] }
    ensures eight_names { (made 1 8).names ≡ builtin_names ++ map (λ e. e.0) (declarations (own_lines (made 1 8))) }
    ensures sixty_four { faults (canon (made 0 64)) ≡ [] }
    ensures sixty_four_names { (made 0 64).names ≡ builtin_names ++ map (λ e. e.0) (declarations (own_lines (made 0 64))) }
{}
