//! Laws of lines whose names are resolved.

ghost use Rattle.std.specs.Prelude.{◌≡◌, ℕ, List, None, false, map};
ghost use Rattle.std.specs.Map.{keys_of};
ghost use Rattle.thr_syntax.specs.declared.form.Form.{Form};
ghost use Rattle.thr_syntax.specs.declared.form.Form.TheVariants as form;
ghost use Rattle.thr_syntax.specs.Spelling.{Scope, form_words};
ghost use Rattle.thr_text.specs.declared.word.Word.{Word};
ghost use Rattle.thr_text.specs.Blocks.{form_shape, shape_of_line};
ghost use Rattle.thr_text.specs.Lexing.{AreOfLine, word_of, word_text};
ghost use Rattle.thr_text.specs.NameFaults.{is_out_of_range};
ghost use Rattle.thr_text.specs.Numbers.{AreSigned, form_numbers};
ghost use Rattle.thr_text.specs.Slots.{form_fault, head_of_line};
ghost use Rattle.thr_text.specs.Tables.{Entry, rest_of};
ghost use Rattle.thr_resolving.specs.Resolving.{resolved, scope_of};
ghost use Rattle.thr_resolving.specs.Scopes.{IsScope, IsFaultless};

/// A line without faults, whose names are resolved, is spelled with just its words. It stands in blocks where the line does.
pub fn resolved_lines_have_their_words()
    ensures words { (entries : List Entry) (locals : List (List ℕ)) (line : List Word) → IsFaultless entries locals line
        → map word_of (form_words (scope_of (keys_of entries) locals) (resolved (scope_of (keys_of entries) locals) line)) ≡ line }
    ensures numbers { (entries : List Entry) (locals : List (List ℕ)) (line : List Word) → IsFaultless entries locals line
        → AreSigned (form_numbers (resolved (scope_of (keys_of entries) locals) line)) }
    ensures shape { (entries : List Entry) (locals : List (List ℕ)) (line : List Word) → IsFaultless entries locals line
        → form_shape (resolved (scope_of (keys_of entries) locals) line) ≡ shape_of_line line }
    ensures own { (entries : List Entry) (locals : List (List ℕ)) (line : List Word) → IsFaultless entries locals line
        → resolved (scope_of (keys_of entries) locals) line ≡ form.Header → ⊥ }
{}

/// The words of a line, whose names are spelled, are resolved to that line. They are words that a line may have, each the text
/// that its line has.
pub fn spelled_lines_are_resolved_again()
    ensures again { (scope : Scope) (f : Form) → IsScope scope → (f ≡ form.Header → ⊥) → AreSigned (form_numbers f)
        → form_fault (map word_of (form_words scope f)) ≡ None
        → is_out_of_range (head_of_line (map word_of (form_words scope f))) (rest_of (map word_of (form_words scope f))) ≡ false
        → resolved scope (map word_of (form_words scope f)) ≡ f }
    ensures shape { (scope : Scope) (f : Form) → (f ≡ form.Header → ⊥)
        → form_shape f ≡ shape_of_line (map word_of (form_words scope f)) }
    ensures words { (scope : Scope) (f : Form) → IsScope scope → (f ≡ form.Header → ⊥) → AreSigned (form_numbers f)
        → form_fault (map word_of (form_words scope f)) ≡ None
        → AreOfLine (map word_of (form_words scope f)) }
    ensures texts { (scope : Scope) (f : Form) → IsScope scope → (f ≡ form.Header → ⊥) → AreSigned (form_numbers f)
        → form_fault (map word_of (form_words scope f)) ≡ None
        → map word_text (map word_of (form_words scope f)) ≡ form_words scope f }
{}
