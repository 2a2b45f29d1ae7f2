//! Expressions: each operator with its faults, variables, exceptions, and the first of two faults.

ghost use Rattle.std.specs.Prelude.{◌≡◌, pos, negsuc, ◌∷◌, [], Ok, Err};
ghost use Rattle.thr_values.specs.Exceptions.{intdiv_e, intovf_e};
ghost use Rattle.thr_syntax.specs.declared.expr.ExcRef.TheVariants.{Named, This};
ghost use Rattle.thr_syntax.specs.declared.expr.Expr.TheVariants as expr;
ghost use Rattle.thr_syntax.specs.declared.expr.Op.TheVariants as op;
ghost use Rattle.thr_syntax.specs.declared.tree.Item.TheVariants as item;
ghost use Rattle.thr_remainder.specs.Samples.{a, b, c, e, greatest, least, local, minus_one, named, num, script, shared, two, value, value_with, x};

/// Sums, differences and products.
#[tactic(auto, unfolding(crate::specs::Computing::remainder_words))]
pub fn sums()
    ensures sum { value (two op.Add 2 3) ≡ Ok (pos 5) }
    ensures sum_of_both { value (expr.Two op.Add greatest least) ≡ Ok (negsuc 0) }
    ensures sum_above { value (expr.Two op.Add greatest (num 1)) ≡ Err intovf_e }
    ensures sum_below { value (expr.Two op.Add least minus_one) ≡ Err intovf_e }
    ensures difference { value (two op.Sub 2 3) ≡ Ok (negsuc 0) }
    ensures difference_greatest { value (expr.Two op.Sub minus_one least) ≡ Ok (pos 9223372036854775807) }
    ensures difference_above { value (expr.Two op.Sub (num 0) least) ≡ Err intovf_e }
    ensures difference_below { value (expr.Two op.Sub least (num 1)) ≡ Err intovf_e }
    ensures product { value (two op.Mul 6 7) ≡ Ok (pos 42) }
    ensures product_least { value (expr.Two op.Mul (num 4294967296) (expr.Num (negsuc 2147483647)))
        ≡ Ok (negsuc 9223372036854775807) }
    ensures product_above { value (two op.Mul 4294967296 2147483648) ≡ Err intovf_e }
    ensures product_of_least { value (expr.Two op.Mul least minus_one) ≡ Err intovf_e }
{}

/// Quotients and remainders round toward 0.
#[tactic(auto, unfolding(crate::specs::Computing::remainder_words))]
pub fn quotients()
    ensures quotient { value (two op.Div 7 2) ≡ Ok (pos 3) }
    ensures quotient_of_negative { value (expr.Two op.Div (expr.Num (negsuc 6)) (num 2)) ≡ Ok (negsuc 2) }
    ensures quotient_by_negative { value (expr.Two op.Div (num 7) (expr.Num (negsuc 1))) ≡ Ok (negsuc 2) }
    ensures quotient_of_both { value (expr.Two op.Div (expr.Num (negsuc 6)) (expr.Num (negsuc 1))) ≡ Ok (pos 3) }
    ensures quotient_of_least { value (expr.Two op.Div least (num 1)) ≡ Ok (negsuc 9223372036854775807) }
    ensures quotient_of_greatest { value (expr.Two op.Div greatest minus_one) ≡ Ok (negsuc 9223372036854775806) }
    ensures quotient_above { value (expr.Two op.Div least minus_one) ≡ Err intovf_e }
    ensures quotient_by_0 { value (two op.Div 1 0) ≡ Err intdiv_e }
    ensures quotient_of_0_by_0 { value (two op.Div 0 0) ≡ Err intdiv_e }
    ensures remainder { value (two op.Rem 7 2) ≡ Ok (pos 1) }
    ensures remainder_of_negative { value (expr.Two op.Rem (expr.Num (negsuc 6)) (num 2)) ≡ Ok (negsuc 0) }
    ensures remainder_by_negative { value (expr.Two op.Rem (num 7) (expr.Num (negsuc 1))) ≡ Ok (pos 1) }
    ensures remainder_of_both { value (expr.Two op.Rem (expr.Num (negsuc 6)) (expr.Num (negsuc 1))) ≡ Ok (negsuc 0) }
    ensures remainder_of_least { value (expr.Two op.Rem least (num 1)) ≡ Ok (pos 0) }
    ensures remainder_above { value (expr.Two op.Rem least minus_one) ≡ Err intovf_e }
    ensures remainder_by_0 { value (two op.Rem 1 0) ≡ Err intdiv_e }
{}

/// Comparisons and conditions are 1 or 0.
#[tactic(auto, unfolding(crate::specs::Computing::remainder_words))]
pub fn conditions()
    ensures equal { value (two op.Equal 2 2) ≡ Ok (pos 1) }
    ensures not_equal { value (expr.Two op.Equal (num 1) minus_one) ≡ Ok (pos 0) }
    ensures differs { value (expr.Two op.Differs (num 1) minus_one) ≡ Ok (pos 1) }
    ensures does_not_differ { value (expr.Two op.Differs least least) ≡ Ok (pos 0) }
    ensures less { value (expr.Two op.Less minus_one (num 0)) ≡ Ok (pos 1) }
    ensures not_less { value (two op.Less 2 2) ≡ Ok (pos 0) }
    ensures at_most { value (two op.AtMost 2 2) ≡ Ok (pos 1) }
    ensures not_at_most { value (expr.Two op.AtMost minus_one least) ≡ Ok (pos 0) }
    ensures greater { value (expr.Two op.Greater minus_one least) ≡ Ok (pos 1) }
    ensures not_greater { value (two op.Greater 2 2) ≡ Ok (pos 0) }
    ensures at_least { value (two op.AtLeast 2 2) ≡ Ok (pos 1) }
    ensures not_at_least { value (expr.Two op.AtLeast minus_one (num 0)) ≡ Ok (pos 0) }
    ensures both { value (expr.Two op.And (num 2) minus_one) ≡ Ok (pos 1) }
    ensures not_both { value (two op.And 0 5) ≡ Ok (pos 0) }
    ensures either { value (expr.Two op.Or (num 0) minus_one) ≡ Ok (pos 1) }
    ensures neither { value (two op.Or 0 0) ≡ Ok (pos 0) }
    ensures negation_of_0 { value (expr.Not (num 0)) ≡ Ok (pos 1) }
    ensures negation_of_another { value (expr.Not minus_one) ≡ Ok (pos 0) }
{}

/// Every operand is valued, and the first fault from the left counts.
#[tactic(auto, unfolding(crate::specs::Computing::remainder_words))]
pub fn first_faults()
    ensures left { value (expr.Two op.Add (expr.Two op.Add greatest (num 1)) (two op.Div 1 0)) ≡ Err intovf_e }
    ensures left_first { value (expr.Two op.Add (two op.Div 1 0) (expr.Two op.Add greatest (num 1))) ≡ Err intdiv_e }
    ensures operand_first { value (expr.Two op.Div (expr.Two op.Add greatest (num 1)) (num 0)) ≡ Err intovf_e }
    ensures right { value (expr.Two op.Or (num 1) (two op.Div 1 0)) ≡ Err intdiv_e }
    ensures right_of_and { value (expr.Two op.And (num 0) (two op.Rem 1 0)) ≡ Err intdiv_e }
    ensures under_not { value (expr.Not (two op.Div 1 0)) ≡ Err intdiv_e }
    ensures deep { value (expr.Two op.Equal (expr.Two op.Mul (num 3) (expr.Two op.Sub (num 4) (two op.Add 1 1))) (num 6))
        ≡ Ok (pos 1) }
{}

/// Variables, `self` and `err`.
#[tactic(auto, unfolding(crate::specs::Computing::remainder_words))]
pub fn names()
    ensures number { value (expr.Num (negsuc 41)) ≡ Ok (negsuc 41) }
    ensures parameter { value (local 0) ≡ Ok (pos 7) }
    ensures other_local { value (local 1) ≡ Ok (negsuc 7) }
    ensures shared_variable { value (shared (named 30)) ≡ Ok (pos 30) }
    ensures itself { value expr.Me ≡ Ok (pos 1) }
    ensures last_reply { value expr.Err ≡ Ok (pos 35) }
{}

/// The numbers of exceptions, and which match.
#[tactic(auto, unfolding(crate::specs::Computing::remainder_words))]
pub fn exceptions()
    ensures status { value_with (script (item.Status a (negsuc 4) ∷ []) 0 []) (expr.GetStatus (Named a)) ≡ Ok (negsuc 4) }
    ensures address { value_with (script (item.Status a (pos 5) ∷ item.Exception b ∷ []) 0 []) (expr.GetStatus (Named b))
        ≡ Ok (negsuc 0) }
    ensures built_in { value (expr.GetStatus (Named (named 7))) ≡ Ok (negsuc 0) }
    ensures itself { value_with (script (item.Exception a ∷ []) 0 []) (expr.Matches (Named a) (Named a)) ≡ Ok (pos 1) }
    ensures two_addresses { value_with (script (item.Exception a ∷ item.Exception b
        ∷ []) 0 []) (expr.Matches (Named a) (Named b)) ≡ Ok (pos 0) }
    ensures one_number { value_with (script (item.Status a (pos 5) ∷ item.Status b (pos 5)
        ∷ []) 0 []) (expr.Matches (Named a) (Named b)) ≡ Ok (pos 1) }
    ensures two_numbers { value_with (script (item.Status a (pos 5) ∷ item.Status b (negsuc 5)
        ∷ []) 0 []) (expr.Matches (Named a) (Named b)) ≡ Ok (pos 0) }
    ensures status_and_address { value_with (script (item.Status a (negsuc 0) ∷ item.Exception b
        ∷ []) 0 []) (expr.Matches (Named a) (Named b)) ≡ Ok (pos 0) }
    ensures built_in_ones { value (expr.Matches (Named (named 7)) (Named (named 8))) ≡ Ok (pos 0) }
{}
