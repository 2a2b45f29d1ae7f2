//! Lines by the shape of their words.

#![tactic(auto, using(crate::proofs::SpacedLaws::line_laws))]

ghost use Rattle.std.specs.Prelude.{◌≡◌, ◌++◌, ◌∷◌, [], OnOk};
ghost use Rattle.std.specs.Fmt.{decimal, signed_decimal};
ghost use Rattle.thr_syntax.specs.Canon.{line};
ghost use Rattle.thr_syntax.specs.Spelling.{expr_words, value_words};
ghost use Rattle.thr_text.specs.Heads.{head_word};
ghost use Rattle.thr_grammar.specs.Printing.{scope_of, spaced};

use crate::printing::expression::{add_count, add_expression, add_number, add_word};
use crate::printing::scope::Scope;
use std::alloc::AllocError;
use thr_syntax::expr::Expr;
use thr_text::head::Head;

/// Adds the first word of a line.
fn begin(out: &mut Vec<u8>, head: Head) -> Result<(), AllocError>
    ensures { OnOk result (out.new.items ≡ out.old.items ++ head_word head) }
{
    out.extend_from_slice(head.text())?;
    Ok(())
}

/// Adds the end of a line.
fn end(out: &mut Vec<u8>) -> Result<(), AllocError>
    ensures { OnOk result (out.new.items ≡ out.old.items ++ 10 ∷ []) }
{
    out.push(b'\n')?;
    Ok(())
}

/// Adds a line of one word.
pub(crate) fn add_bare(out: &mut Vec<u8>, head: Head) -> Result<(), AllocError>
    ensures { OnOk result (out.new.items ≡ out.old.items ++ line (head_word head ∷ [])) }
{
    begin(out, head)?;
    end(out)
}

/// Adds a line with a word after the first.
pub(crate) fn add_with(out: &mut Vec<u8>, head: Head, a: &[u8]) -> Result<(), AllocError>
    ensures { OnOk result (out.new.items ≡ out.old.items ++ line (head_word head ∷ a.now ∷ [])) }
{
    begin(out, head)?;
    add_word(out, a)?;
    end(out)
}

/// Adds a line with two words after the first.
pub(crate) fn add_with_two(
    out: &mut Vec<u8>,
    head: Head,
    a: &[u8],
    b: &[u8],
) -> Result<(), AllocError>
    ensures { OnOk result (out.new.items ≡ out.old.items ++ line (head_word head ∷ a.now ∷ b.now ∷ [])) }
{
    begin(out, head)?;
    add_word(out, a)?;
    add_word(out, b)?;
    end(out)
}

/// Adds a line with three words after the first.
pub(crate) fn add_with_three(
    out: &mut Vec<u8>,
    head: Head,
    a: &[u8],
    b: &[u8],
    c: &[u8],
) -> Result<(), AllocError>
    ensures { OnOk result (out.new.items ≡ out.old.items ++ line (head_word head ∷ a.now ∷ b.now ∷ c.now ∷ [])) }
{
    begin(out, head)?;
    add_word(out, a)?;
    add_word(out, b)?;
    add_word(out, c)?;
    end(out)
}

/// Adds a line with a word and a number that may have a sign.
pub(crate) fn add_with_number(
    out: &mut Vec<u8>,
    head: Head,
    a: &[u8],
    n: i64,
) -> Result<(), AllocError>
    ensures { OnOk result (out.new.items ≡ out.old.items ++ line (head_word head ∷ a.now ∷ signed_decimal n ∷ [])) }
{
    begin(out, head)?;
    add_word(out, a)?;
    add_number(out, n)?;
    end(out)
}

/// Adds a line with a number.
pub(crate) fn add_limit(out: &mut Vec<u8>, head: Head, n: u32) -> Result<(), AllocError>
    ensures { OnOk result (out.new.items ≡ out.old.items ++ line (head_word head ∷ decimal n ∷ [])) }
{
    begin(out, head)?;
    add_count(out, n)?;
    end(out)
}

/// Adds a line with a word and a number.
pub(crate) fn add_with_count(
    out: &mut Vec<u8>,
    head: Head,
    a: &[u8],
    n: u32,
) -> Result<(), AllocError>
    ensures { OnOk result (out.new.items ≡ out.old.items ++ line (head_word head ∷ a.now ∷ decimal n ∷ [])) }
{
    begin(out, head)?;
    add_word(out, a)?;
    add_count(out, n)?;
    end(out)
}

/// Adds a line with an expression.
pub(crate) fn add_value(
    out: &mut Vec<u8>,
    scope: &Scope<'_>,
    head: Head,
    e: &Expr,
) -> Result<(), AllocError>
    ensures { OnOk result (out.new.items ≡ out.old.items ++ line (head_word head ∷ expr_words (scope_of scope.now) e.now)) }
{
    begin(out, head)?;
    add_expression(out, scope, e)?;
    end(out)
}

/// Adds a line with a word and an expression.
pub(crate) fn add_with_value(
    out: &mut Vec<u8>,
    scope: &Scope<'_>,
    head: Head,
    a: &[u8],
    e: &Expr,
) -> Result<(), AllocError>
    ensures { OnOk result (out.new.items ≡ out.old.items ++ line (head_word head ∷ a.now ∷ expr_words (scope_of scope.now) e.now)) }
{
    begin(out, head)?;
    add_word(out, a)?;
    add_expression(out, scope, e)?;
    end(out)
}

/// Adds a line with two words and an expression.
pub(crate) fn add_with_two_and_value(
    out: &mut Vec<u8>,
    scope: &Scope<'_>,
    head: Head,
    a: &[u8],
    b: &[u8],
    e: &Expr,
) -> Result<(), AllocError>
    ensures { OnOk result (out.new.items ≡ out.old.items ++ line (head_word head ∷ a.now ∷ b.now ∷ expr_words (scope_of scope.now) e.now)) }
{
    begin(out, head)?;
    add_word(out, a)?;
    add_word(out, b)?;
    add_expression(out, scope, e)?;
    end(out)
}

/// Adds a line with three words and an expression.
pub(crate) fn add_with_three_and_value(
    out: &mut Vec<u8>,
    scope: &Scope<'_>,
    head: Head,
    a: &[u8],
    b: &[u8],
    c: &[u8],
    e: &Expr,
) -> Result<(), AllocError>
    ensures { OnOk result (out.new.items ≡ out.old.items ++ line (head_word head ∷ a.now ∷ b.now ∷ c.now ∷ expr_words (scope_of scope.now) e.now)) }
{
    begin(out, head)?;
    add_word(out, a)?;
    add_word(out, b)?;
    add_word(out, c)?;
    add_expression(out, scope, e)?;
    end(out)
}

/// Adds a line with an expression and a word.
pub(crate) fn add_value_with(
    out: &mut Vec<u8>,
    scope: &Scope<'_>,
    head: Head,
    e: &Expr,
    a: &[u8],
) -> Result<(), AllocError>
    ensures { OnOk result (out.new.items ≡ out.old.items ++ line (head_word head ∷ (expr_words (scope_of scope.now) e.now ++ a.now ∷ []))) }
{
    begin(out, head)?;
    add_expression(out, scope, e)?;
    add_word(out, a)?;
    end(out)
}

/// Adds a line with two expressions and a word.
pub(crate) fn add_two_values_with(
    out: &mut Vec<u8>,
    scope: &Scope<'_>,
    head: Head,
    d: &Expr,
    e: &Expr,
    a: &[u8],
) -> Result<(), AllocError>
    ensures { OnOk result (out.new.items ≡ out.old.items ++ line (head_word head ∷ (expr_words (scope_of scope.now) d.now ++ (expr_words (scope_of scope.now) e.now ++ a.now ∷ [])))) }
{
    begin(out, head)?;
    add_expression(out, scope, d)?;
    add_expression(out, scope, e)?;
    add_word(out, a)?;
    end(out)
}

/// Adds a line with an expression, a word, an expression and a word.
pub(crate) fn add_values_between(
    out: &mut Vec<u8>,
    scope: &Scope<'_>,
    head: Head,
    d: &Expr,
    a: &[u8],
    e: &Expr,
    b: &[u8],
) -> Result<(), AllocError>
    ensures { OnOk result (out.new.items ≡ out.old.items ++ line (head_word head ∷ (expr_words (scope_of scope.now) d.now ++ a.now ∷ (expr_words (scope_of scope.now) e.now ++ b.now ∷ [])))) }
{
    begin(out, head)?;
    add_expression(out, scope, d)?;
    add_word(out, a)?;
    add_expression(out, scope, e)?;
    add_word(out, b)?;
    end(out)
}

/// Adds the receiver of a returned value after a space, if there is one.
fn add_receiver(
    out: &mut Vec<u8>,
    scope: &Scope<'_>,
    receiver: Option<u8>,
) -> Result<(), AllocError>
    ensures { OnOk result (out.new.items ≡ out.old.items ++ spaced (value_words (scope_of scope.now) receiver)) }
{
    match receiver {
        None => Ok(()),
        Some(place) => add_word(out, scope.local(place)),
    }
}

/// Adds a line with a word, an expression and a receiver, if there is one.
pub(crate) fn add_call_line(
    out: &mut Vec<u8>,
    scope: &Scope<'_>,
    head: Head,
    a: &[u8],
    e: &Expr,
    receiver: Option<u8>,
) -> Result<(), AllocError>
    ensures { OnOk result (out.new.items ≡ out.old.items ++ line (head_word head ∷ a.now ∷ (expr_words (scope_of scope.now) e.now ++ value_words (scope_of scope.now) receiver))) }
{
    begin(out, head)?;
    add_word(out, a)?;
    add_expression(out, scope, e)?;
    add_receiver(out, scope, receiver)?;
    end(out)
}
