//! Laws of lines by themselves: that a line has one form at most, and which line has the first fault.

ghost use Rattle.std.specs.Prelude.{◌≡◌, ◌⊎◌, ℕ, Some, List, [], false};
ghost use Rattle.thr_text.specs.declared.word.Word.{Word};
ghost use Rattle.thr_text.specs.declared.head.Head.{Head};
ghost use Rattle.thr_text.specs.Lexing.{words_of, line_text};
ghost use Rattle.thr_text.specs.Faults.{first_of, word_faults};
ghost use Rattle.thr_text.specs.Grammar.{HasForm};
ghost use Rattle.thr_text.specs.Reading.{scan_faults};
ghost use Rattle.thr_forms.specs.Filling.{Part, IsForm};
ghost use Rattle.thr_forms.specs.FirstFaults.{IsFirstFaulty, IsWordless};

/// The first fault of the first pass is at a line exactly where no line above has a fault by itself and it has one, and is
/// its least; or it is F5 at the line after the last, exactly where no line has a fault or words (docs/script.md, "Faults").
pub fn first_faulty_lines_are_told()
    ensures says { (lines : List (List ℕ)) (fault : ℕ × ℕ) → first_of (scan_faults 1 false lines) ≡ Some fault → IsFirstFaulty 1 false lines fault ⊎ IsWordless 1 false lines fault }
    ensures comes { (lines : List (List ℕ)) (fault : ℕ × ℕ) → IsFirstFaulty 1 false lines fault → first_of (scan_faults 1 false lines) ≡ Some fault }
    ensures comes_at_the_end { (lines : List (List ℕ)) (fault : ℕ × ℕ) → IsWordless 1 false lines fault → first_of (scan_faults 1 false lines) ≡ Some fault }
{}

/// A line that has a form has one form alone: one first word, and one word or expression for each slot (docs/script.md,
/// "Lines").
pub fn lines_have_one_form()
    ensures has_one { (words : List Word) → HasForm words → (head : Head) × (parts : List Part) × IsForm words head parts }
    ensures is_a_form { (words : List Word) (head : Head) (parts : List Part) → IsForm words head parts → HasForm words }
    ensures no_other { (words : List Word) (head other : Head) (parts more : List Part) → IsForm words head parts → IsForm words other more → (head ≡ other) × (parts ≡ more) }
{}

/// The canonical line of a line without faults is read as the same form (docs/script.md, "The canonical text").
pub fn canonical_lines_have_the_same_form()
    ensures { (line : List ℕ) (head : Head) (parts : List Part) → word_faults line ≡ [] → IsForm (words_of line) head parts → IsForm (words_of (line_text (words_of line))) head parts }
{}
