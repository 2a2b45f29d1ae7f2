//! Laws on lines and their canonical texts.

ghost use Rattle.std.specs.Prelude.{◌≡◌, ◌≤◌, ℕ, List, [], length};
ghost use Rattle.thr_text.specs.declared.word.Word.{Word};
ghost use Rattle.thr_text.specs.Lexing.{words_of, line_text, AreOfLine};
ghost use Rattle.thr_text.specs.Faults.{word_faults};

/// The canonical text of words that a line may have is a line with just these words (docs/script.md, "The canonical text").
pub fn words_are_read_again()
    ensures { (words : List Word) → AreOfLine words → words_of (line_text words) ≡ words }
{}

/// A line's canonical text is no longer than the line and has no fault where the line has none (docs/script.md, "The
/// canonical text" and "Faults"). The words of such a line are words that a line may have.
pub fn canonical_lines_keep_the_rules()
    ensures no_longer { (line : List ℕ) → word_faults line ≡ [] → length (line_text (words_of line)) ≤ length line }
    ensures faultless { (line : List ℕ) → word_faults line ≡ [] → word_faults (line_text (words_of line)) ≡ [] }
    ensures of_line { (line : List ℕ) → word_faults line ≡ [] → AreOfLine (words_of line) }
{}
