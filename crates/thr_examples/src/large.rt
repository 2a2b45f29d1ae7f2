//! Texts at the limits of lines and of names.

ghost use Rattle.std.specs.Prelude.{◌≡◌, ◌∷◌, [], ◌++◌, true, false, codes, replicate, None, Some};
ghost use Rattle.thr_text.specs.Lexing.{words_of};
ghost use Rattle.thr_text.specs.NameFaults.{passes_limit};
ghost use Rattle.thr_examples.specs.Texts.{fault_of, below_mutexes};

/// Texts of 20,000 lines and of one more, most of them blank.
#[tactic(auto, unfolding(crate::specs::Words::example_words))]
pub fn lines_of_a_text()
    ensures lines_20000 { fault_of (codes "dcethr 1" ++ 10 ∷ codes "routine main a" ++ 10 ∷ codes "end" ++ replicate 19998 10) ≡ None }
    ensures lines_20001 { fault_of (codes "dcethr 1" ++ 10 ∷ codes "routine main a" ++ 10 ∷ codes "end" ++ replicate 19999 10) ≡ Some (20001, 18) }
    ensures no_main_below { fault_of (codes "dcethr 1" ++ replicate 20001 10) ≡ Some (20001, 18) }
    ensures lesser_number_there { fault_of (codes "dcethr 1" ++ 10 ∷ codes "routine main a" ++ replicate 19999 10 ++ codes "say x" ++ 10 ∷ codes "end" ++ 10 ∷ []) ≡ Some (20001, 16) }
    ensures open_below { fault_of (codes "dcethr 1" ++ 10 ∷ codes "routine main a" ++ replicate 20000 10) ≡ Some (20002, 8) }
{}

/// The names above a declaration, of which there may be 999.
#[tactic(auto, unfolding(crate::specs::Words::example_words))]
pub fn declared_names()
    ensures last { passes_limit (below_mutexes 999) (words_of (codes "mutex m")) ≡ false }
    ensures one_more { passes_limit (below_mutexes 1000) (words_of (codes "mutex m")) ≡ true }
    ensures no_name { passes_limit (below_mutexes 1000) (words_of (codes "limit 5")) ≡ false }
{}
