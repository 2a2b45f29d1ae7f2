//! Operators.

ghost use Rattle.std.specs.Prelude.{◌≡◌};
ghost use Rattle.thr_remainder.specs.Expressions.{applied, truth, two_values, opposite, status_of, is_same, is_true};

use thr_syntax::expr::Op;
use thr_values::exception::{Exc, INTDIV_E, INTOVF_E};

/// 1 where it holds, else 0.
#[inline(always)]
pub fn truth(holds: bool) -> i64
    ensures { result ≡ truth holds }
{
    if holds { 1 } else { 0 }
}

/// A condition is true where its value isn't 0.
#[inline(always)]
pub fn is_true(n: i64) -> bool
    ensures { result ≡ is_true n }
{
    n != 0
}

/// What an operator gives of two numbers (docs/script.md, "Expressions").
#[inline(always)]
pub fn apply(op: Op, a: i64, b: i64) -> Result<i64, Exc>
    ensures { result ≡ applied op a b }
{
    match op {
        Op::Add => a.checked_add(b).ok_or(INTOVF_E),
        Op::Sub => a.checked_sub(b).ok_or(INTOVF_E),
        Op::Mul => a.checked_mul(b).ok_or(INTOVF_E),
        Op::Div => if b == 0 {
            Err(INTDIV_E)
        } else {
            a.checked_div(b).ok_or(INTOVF_E)
        },
        Op::Rem => if b == 0 {
            Err(INTDIV_E)
        } else {
            a.checked_rem(b).ok_or(INTOVF_E)
        },
        Op::Equal => Ok(truth(a == b)),
        Op::Differs => Ok(truth(a != b)),
        Op::Less => Ok(truth(a < b)),
        Op::AtMost => Ok(truth(a <= b)),
        Op::Greater => Ok(truth(a > b)),
        Op::AtLeast => Ok(truth(a >= b)),
        Op::And => Ok(truth(a != 0 && b != 0)),
        Op::Or => Ok(truth(a != 0 || b != 0)),
    }
}

/// An operator's value of two operands, or the first fault of the two.
pub fn both(op: Op, a: Result<i64, Exc>, b: Result<i64, Exc>) -> Result<i64, Exc>
    ensures { result ≡ two_values op a b }
{
    match (a, b) {
        (Err(x), _) => Err(x),
        (Ok(_), Err(y)) => Err(y),
        (Ok(m), Ok(n)) => apply(op, m, n),
    }
}

/// The value of `not`, or the fault of its operand.
pub fn opposite(a: Result<i64, Exc>) -> Result<i64, Exc>
    ensures { result ≡ opposite a }
{
    match a {
        Ok(n) => Ok(truth(n == 0)),
        Err(x) => Err(x),
    }
}

/// The number of a status exception, and -1 of an address exception.
pub fn status(x: Exc) -> i64
    ensures { result ≡ status_of x }
{
    match x {
        Exc::Status(n) => n,
        Exc::Address(_) => -1,
    }
}

/// Whether two exceptions are the same.
pub fn same(a: Exc, b: Exc) -> bool
    ensures { result ≡ is_same a b }
{
    match (a, b) {
        (Exc::Address(a), Exc::Address(b)) => a.0 == b.0,
        (Exc::Status(m), Exc::Status(n)) => m == n,
        _ => false,
    }
}
