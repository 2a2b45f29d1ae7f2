//! The words of expressions.

ghost use Rattle.std.specs.Prelude.{◌≡◌, ◌++◌, ◌∷◌, [], OnOk};
ghost use Rattle.std.specs.Fmt.{decimal, signed_decimal};
ghost use Rattle.thr_syntax.specs.Spelling.{expr_words};
ghost use Rattle.thr_grammar.specs.Printing.{scope_of, spaced};

use crate::printing::scope::Scope;
use itoa::Buffer;
use std::alloc::AllocError;
use thr_syntax::expr::Expr;
use thr_text::fixed::operator_text;

/// Adds a word after a space.
pub(crate) fn add_word(out: &mut Vec<u8>, word: &[u8]) -> Result<(), AllocError>
    ensures { OnOk result (out.new.items ≡ out.old.items ++ spaced (word.now ∷ [])) }
{
    out.push(b' ')?;
    out.extend_from_slice(word)?;
    Ok(())
}

/// Adds a number after a space.
pub(crate) fn add_number(out: &mut Vec<u8>, n: i64) -> Result<(), AllocError>
    ensures { OnOk result (out.new.items ≡ out.old.items ++ spaced (signed_decimal n ∷ [])) }
{
    let mut buffer = Buffer::new();
    add_word(out, buffer.format(n).as_bytes())
}

/// Adds a number that has no sign after a space.
pub(crate) fn add_count(out: &mut Vec<u8>, n: u32) -> Result<(), AllocError>
    ensures { OnOk result (out.new.items ≡ out.old.items ++ spaced (decimal n ∷ [])) }
{
    let mut buffer = Buffer::new();
    add_word(out, buffer.format(n).as_bytes())
}

/// Adds the words of an expression, each after a space.
pub(crate) fn add_expression(
    out: &mut Vec<u8>,
    scope: &Scope<'_>,
    e: &Expr,
) -> Result<(), AllocError>
    ensures { OnOk result (out.new.items ≡ out.old.items ++ spaced (expr_words (scope_of scope.now) e.now)) }
{
    match e {
        Expr::Num(n) => add_number(out, *n),
        Expr::Var(v) => add_word(out, scope.variable(*v)),
        Expr::Me => add_word(out, b"self"),
        Expr::Err => add_word(out, b"err"),
        Expr::Two(op, a, b) => {
            add_word(out, operator_text(*op))?;
            add_expression(out, scope, a.get())?;
            add_expression(out, scope, b.get())
        }
        Expr::Not(a) => {
            add_word(out, b"not")?;
            add_expression(out, scope, a.get())
        }
        Expr::GetStatus(x) => {
            add_word(out, b"exc_get_status")?;
            add_word(out, scope.exception(*x))
        }
        Expr::Matches(x, y) => {
            add_word(out, b"exc_matches")?;
            add_word(out, scope.exception(*x))?;
            add_word(out, scope.exception(*y))
        }
    }
}
