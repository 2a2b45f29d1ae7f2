//! Numbers in their shortest form.

ghost use Rattle.std.specs.Prelude.{◌≡◌, ◌∷◌, [], map, codes, pos, negsuc, Some, None};
ghost use Rattle.thr_journals.specs.Numbers.{short_in, long_in, value_in};

/// Numbers of 32 bits, and what is none.
#[tactic(auto, unfolding(crate::specs::Computing::journal_words))]
pub fn short_numbers()
    ensures numbers { map short_in (codes "0" ∷ codes "7" ∷ codes "10" ∷ codes "4294967295" ∷ []) ≡ Some 0 ∷ Some 7 ∷ Some 10 ∷ Some 4294967295 ∷ [] }
    ensures others { map short_in (codes "" ∷ codes "00" ∷ codes "07" ∷ codes "-0" ∷ codes "-1" ∷ codes "+1" ∷ codes "1x" ∷ codes "4294967296" ∷ [])
        ≡ None ∷ None ∷ None ∷ None ∷ None ∷ None ∷ None ∷ None ∷ [] }
    ensures long { map long_in (codes "18446744073709551615" ∷ codes "18446744073709551616" ∷ []) ≡ Some 18446744073709551615 ∷ None ∷ [] }
{}

/// Values, and what is none.
#[tactic(auto, unfolding(crate::specs::Computing::journal_words))]
pub fn values()
    ensures values { map value_in (codes "0" ∷ codes "-1" ∷ codes "9223372036854775807" ∷ codes "-9223372036854775808" ∷ [])
        ≡ Some (pos 0) ∷ Some (negsuc 0) ∷ Some (pos 9223372036854775807) ∷ Some (negsuc 9223372036854775807) ∷ [] }
    ensures others { map value_in (codes "-0" ∷ codes "-01" ∷ codes "-" ∷ codes "" ∷ codes "01" ∷ codes "9223372036854775808" ∷ codes "-9223372036854775809" ∷ [])
        ≡ None ∷ None ∷ None ∷ None ∷ None ∷ None ∷ None ∷ [] }
{}
