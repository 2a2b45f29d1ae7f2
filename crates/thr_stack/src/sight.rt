//! The values of expressions.

ghost use Rattle.std.specs.Prelude.{◌≡◌, ◌≢◌, [], Ok, IfSome};
ghost use Rattle.thr_remainder.specs.Declarations.{exception_value};
ghost use Rattle.thr_remainder.specs.Expressions.{value_in, value_of, two_values, exception_at, variable_value};
ghost use Rattle.thr_stack.specs.Sights.{shared_of, seen};
ghost use Rattle.thr_stack.specs.Standing.{IsGood, setting_of, remainder_of};

use crate::context::Context;
use thr_lines::lines::Lines;
use thr_operators::compute::{apply, both, opposite, same, status, truth};
use thr_syntax::expr::{ExcRef, Expr, Op, Var};
use thr_values::exception::Exc;
use thr_values::number::NameId;

/// What an expression sees: the lines, the thread, and the values of shared variables by their places.
#[derive(Clone, Copy)]
pub struct Sight<'a> {
    pub lines: &'a Lines,
    pub context: &'a Context,
    pub shared: &'a [i64],
}

/// The exception that a name stands for.
pub fn exception(lines: &Lines, name: NameId) -> Exc
    ensures { result ≡ exception_value lines.now name }
{
    match lines.exception(name) {
        Some(x) => x,
        None => Exc::Address(name),
    }
}

impl<'a> Sight<'a> {
    fn exception(&self, x: ExcRef) -> Exc
        ensures { result ≡ exception_at (seen self.now.lines.now self.now.context.now (shared_of self.now.shared.now)) x }
    {
        match x {
            ExcRef::Named(name) => exception(self.lines, name),
            ExcRef::This => self.context.frames.caught(),
        }
    }

    #[inline(always)]
    fn variable(&self, v: Var) -> i64
        ensures { result ≡ variable_value (seen self.now.lines.now self.now.context.now (shared_of self.now.shared.now)) v }
    {
        match v {
            Var::Local(p) => self.context.frames.local(p),
            Var::Shared(name) => match self.shared.get(name.0 as usize) {
                Some(n) => *n,
                None => 0,
            },
        }
    }

    /// The value of an expression that is a number, a variable, `self` or `err`; None elsewhere.
    #[inline(always)]
    #[tactic(auto, using(thr_remainder::proofs::SightLaws::value_laws))]
    fn leaf(&self, e: &Expr) -> Option<i64>
        ensures { IfSome result (λ n. value_in (seen self.now.lines.now self.now.context.now (shared_of self.now.shared.now)) e.now ≡ Ok n) }
    {
        match e {
            Expr::Num(n) => {
                let n = *n;
                Some(n)
            }
            Expr::Var(v) => Some(self.variable(*v)),
            Expr::Me => Some(self.context.me as i64),
            Expr::Err => Some(self.context.err),
            _ => None,
        }
    }

    /// The value of an operator with these operands, where both are leaves; None elsewhere.
    #[inline(always)]
    fn pair(&self, op: Op, a: &Expr, b: &Expr) -> Option<Result<i64, Exc>>
        ensures { IfSome result (λ v. two_values op (value_in (seen self.now.lines.now self.now.context.now (shared_of self.now.shared.now)) a.now) (value_in (seen self.now.lines.now self.now.context.now (shared_of self.now.shared.now)) b.now) ≡ v) }
    {
        let Some(m) = self.leaf(a) else {
            return None;
        };
        let Some(n) = self.leaf(b) else {
            return None;
        };
        Some(apply(op, m, n))
    }

    /// The value of an operator whose operands are leaves; None elsewhere. Most expressions are of this form, and their
    /// values take no call.
    #[inline(always)]
    #[tactic(auto, using(thr_remainder::proofs::SightLaws::value_laws))]
    fn shallow(&self, e: &Expr) -> Option<Result<i64, Exc>>
        ensures { IfSome result (λ v. value_in (seen self.now.lines.now self.now.context.now (shared_of self.now.shared.now)) e.now ≡ v) }
    {
        match e {
            Expr::Two(op, a, b) => self.pair(*op, a.get(), b.get()),
            _ => None,
        }
    }

    /// The value of an expression, or its first fault from the left (docs/script.md, "Expressions").
    #[inline(never)]
    #[tactic(auto, using(thr_remainder::proofs::SightLaws::value_laws))]
    pub fn value(&self, e: &Expr) -> Result<i64, Exc>
        ensures { result ≡ value_in (seen self.now.lines.now self.now.context.now (shared_of self.now.shared.now)) e.now }
    {
        match e {
            Expr::Num(n) => {
                let n = *n;
                Ok(n)
            }
            Expr::Var(v) => Ok(self.variable(*v)),
            Expr::Me => Ok(self.context.me as i64),
            Expr::Err => Ok(self.context.err),
            Expr::Two(op, a, b) => both(*op, self.value(a.get()), self.value(b.get())),
            Expr::Not(a) => opposite(self.value(a.get())),
            Expr::GetStatus(x) => Ok(status(self.exception(*x))),
            Expr::Matches(x, y) => Ok(truth(same(self.exception(*x), self.exception(*y)))),
        }
    }
}

/// The value of an expression where a thread stands, with these values of shared variables.
#[inline(always)]
pub fn value(lines: &Lines, context: &Context, e: &Expr, shared: &[i64]) -> Result<i64, Exc>
    requires good { IsGood lines.now context.now }
    requires some { context.now.frames.items ≢ [] }
    ensures { result ≡ value_of (setting_of lines.now context.now) (shared_of shared.now) (remainder_of lines.now context.now) e.now }
{
    let sight = Sight {
        lines,
        context,
        shared,
    };
    if let Some(v) = sight.shallow(e) {
        return v;
    }
    sight.value(e)
}
