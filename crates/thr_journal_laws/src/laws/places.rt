//! Places of lines, and several of them.

ghost use Rattle.std.specs.Prelude.{◌≡◌, ℕ, ℤ, ◌∷◌, [], ◌++◌, List, Some};
ghost use Rattle.std.specs.Fmt.{decimal, signed_decimal};
ghost use Rattle.thr_text.specs.Journals.{thread_word};
ghost use Rattle.thr_journals.specs.Fields.{both, alone, count, value, place, thread};
ghost use Rattle.thr_journal_laws.specs.Numbers.{HasSixtyFourBits};
ghost use Rattle.thr_journal_laws.specs.Places.{IsReadAsPrinted, IsLong, IsPlace, IsThread};

/// Numbers of scopes and unwindings, values, lines of the script and threads are read as they are printed.
pub fn places_are_read_as_printed()
    ensures count { IsReadAsPrinted count (λ n. decimal n ∷ []) IsLong }
    ensures value { IsReadAsPrinted value (λ z. signed_decimal z ∷ []) HasSixtyFourBits }
    ensures place { IsReadAsPrinted place (λ l. decimal l.0 ∷ []) IsPlace }
    ensures thread { IsReadAsPrinted thread (λ t. thread_word t ∷ []) IsThread }
{}

/// So are the places of most lines, one behind the other.
pub fn places_in_a_row_are_read_as_printed()
    ensures at_line { IsReadAsPrinted (both place value) (λ x. (decimal x.0.0 ∷ []) ++ signed_decimal x.1 ∷ []) (λ x. IsPlace x.0 × HasSixtyFourBits x.1) }
    ensures count_at { IsReadAsPrinted (both count place) (λ x. (decimal x.0 ∷ []) ++ decimal x.1.0 ∷ []) (λ x. IsLong x.0 × IsPlace x.1) }
    ensures count_and_value { IsReadAsPrinted (both count value) (λ x. (decimal x.0 ∷ []) ++ signed_decimal x.1 ∷ []) (λ x. IsLong x.0 × HasSixtyFourBits x.1) }
    ensures two_counts { IsReadAsPrinted (both count count) (λ x. (decimal x.0 ∷ []) ++ decimal x.1 ∷ []) (λ x. IsLong x.0 × IsLong x.1) }
{}

/// All of the words are read as just what is printed: here of a line that has the number of an unwinding and a value.
pub fn whole_words_are_read_as_printed()
    ensures taken { (ws : List (List ℕ)) (x : ℕ × ℤ) → alone (both count value) ws ≡ Some x
        → (ws ≡ decimal x.0 ∷ signed_decimal x.1 ∷ []) × (IsLong x.0 × HasSixtyFourBits x.1) }
    ensures again { (x : ℕ × ℤ) → IsLong x.0 × HasSixtyFourBits x.1 → alone (both count value) (decimal x.0 ∷ signed_decimal x.1 ∷ []) ≡ Some x }
{}
