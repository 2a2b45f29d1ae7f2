//! Lines and their canonical texts.

ghost use Rattle.std.specs.Prelude.{◌≡◌, ◌∷◌, [], codes, pos, negsuc};
ghost use Rattle.thr_text.specs.declared.word.Word.TheVariants.{Num, Name, Mark};
ghost use Rattle.thr_text.specs.Lexing.{words_of, line_text};
ghost use Rattle.thr_text.specs.Faults.{word_faults};

/// Lines without faults: their words, and the texts of these.
#[tactic(auto, unfolding(crate::specs::Words::example_words))]
pub fn lines_in_canonical_text()
    ensures no_fault { word_faults (codes "  say -007 # x") ≡ [] }
    ensures words { words_of (codes "  say -007 # x") ≡ Name (codes "say") ∷ Num (negsuc 6) ∷ [] }
    ensures text { line_text (words_of (codes "  say -007 # x")) ≡ codes "say -7" }
    ensures text_no_fault { word_faults (codes "say -7") ≡ [] }
    ensures zero { line_text (words_of (codes "set x\t-0 <=")) ≡ codes "set x 0 <=" }
    ensures least { line_text (words_of (codes "-09223372036854775808")) ≡ codes "-9223372036854775808" }
    ensures greatest { line_text (words_of (codes "09223372036854775807")) ≡ codes "9223372036854775807" }
    ensures least_no_fault { word_faults (codes "-9223372036854775808") ≡ [] }
    ensures comment { line_text (words_of (codes " \t# 9223372036854775808")) ≡ [] }
    ensures comment_no_fault { word_faults (codes " \t# 9223372036854775808") ≡ [] }
{}
