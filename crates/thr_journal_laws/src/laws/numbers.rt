//! Numbers.

ghost use Rattle.std.specs.Prelude.{◌≡◌, ◌≤◌, ◌<◌, ◌^◌, ℕ, ℤ, List, true, Some};
ghost use Rattle.std.specs.Fmt.{decimal, signed_decimal};
ghost use Rattle.thr_journals.specs.Numbers.{is_shortest, number_of, number_in, value_in};
ghost use Rattle.thr_journal_laws.specs.Numbers.{IsBetween, HasSixtyFourBits};

/// A number in its shortest form is what is printed of it, and what is printed is in its shortest form.
pub fn numbers_are_read_as_printed()
    ensures printed { (text : List ℕ) → is_shortest text ≡ true → number_of text < 2 ^ 64 → decimal (number_of text) ≡ text }
    ensures taken { (least most n : ℕ) (text : List ℕ) → most < 2 ^ 64 → number_in least most text ≡ Some n → (text ≡ decimal n) × IsBetween least most n }
    ensures again { (least most n : ℕ) → most < 2 ^ 64 → IsBetween least most n → number_in least most (decimal n) ≡ Some n }
{}

/// A value that is read is what is printed of it, and what is printed is read.
pub fn values_are_read_as_printed()
    ensures taken { (text : List ℕ) (z : ℤ) → value_in text ≡ Some z → (text ≡ signed_decimal z) × HasSixtyFourBits z }
    ensures again { (z : ℤ) → HasSixtyFourBits z → value_in (signed_decimal z) ≡ Some z }
{}
