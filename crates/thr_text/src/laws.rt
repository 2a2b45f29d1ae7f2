//! Laws of line forms: what a line's fault says of it, apart from how the line is read.

ghost use Rattle.std.specs.Prelude.{◌≡◌, ℕ, ◌⊎◌, None, Some, List, ◌∷◌, ◌++◌};
ghost use Rattle.thr_text.specs.declared.word.Word.{Word};
ghost use Rattle.thr_text.specs.Lexing.{AreOfLine};
ghost use Rattle.thr_text.specs.Slots.{form_fault};
ghost use Rattle.thr_text.specs.Grammar.{Term, term_words, IsTerm, HasForm};

/// The lines with words that have a form are just those without a fault of form (docs/script.md, "Lines" and "Faults").
pub fn lines_with_a_form_have_no_fault()
    ensures formed_passes { (words : List Word) → HasForm words → form_fault words ≡ None }
    ensures passed_is_formed { (first : Word) (words : List Word) → form_fault (first ∷ words) ≡ None → HasForm (first ∷ words) }
{}

/// Words begin with one expression at most.
pub fn expressions_are_read_in_one_way()
    ensures { (one other : Term) (rest more : List Word) → IsTerm one → IsTerm other → term_words one ++ rest ≡ term_words other ++ more → (one ≡ other) × (rest ≡ more) }
{}

/// A fault of form is F6 or F7.
pub fn faults_of_form_are_two()
    ensures { (words : List Word) (n : ℕ) → form_fault words ≡ Some n → (n ≡ 6) ⊎ (n ≡ 7) }
{}

/// F6 comes exactly where a word stands after which no line has a form, and another word could stand there.
pub fn misplaced_words_are_told()
    ensures has_such_a_word { (words : List Word) → form_fault words ≡ Some 6
        → (front : List Word) × (wrong : Word) × (rest : List Word) × (words ≡ front ++ wrong ∷ rest)
        × ((right : Word) × (more : List Word) × AreOfLine (right ∷ more) × HasForm (front ++ right ∷ more))
        × ((more : List Word) → HasForm (front ++ wrong ∷ more) → ⊥) }
    ensures such_a_word_is_told { (front : List Word) (wrong : Word) (rest : List Word) (right : Word) (more : List Word)
        → HasForm (front ++ right ∷ more)
        → ((others : List Word) → HasForm (front ++ wrong ∷ others) → ⊥)
        → form_fault (front ++ wrong ∷ rest) ≡ Some 6 }
{}

/// F7 comes exactly where a line has no form but would have one with more words, or where words follow a line that has a
/// form and can't be longer.
pub fn wrong_lengths_are_told()
    ensures has_wrong_length { (words : List Word) → form_fault words ≡ Some 7
        → ((next : Word) × (more : List Word) × AreOfLine (next ∷ more) × HasForm (words ++ next ∷ more))
        ⊎ ((front : List Word) × (over : Word) × (rest : List Word) × (words ≡ front ++ over ∷ rest) × HasForm front
        × ((next : Word) (more : List Word) → HasForm (front ++ next ∷ more) → ⊥)) }
    ensures too_short_is_told { (first : Word) (words : List Word) (next : Word) (more : List Word)
        → HasForm (first ∷ (words ++ next ∷ more))
        → (HasForm (first ∷ words) → ⊥)
        → form_fault (first ∷ words) ≡ Some 7 }
    ensures too_long_is_told { (front : List Word) (over : Word) (rest : List Word)
        → HasForm front
        → ((next : Word) (more : List Word) → HasForm (front ++ next ∷ more) → ⊥)
        → form_fault (front ++ over ∷ rest) ≡ Some 7 }
{}
