//! Expressions (docs/script.md, "Expressions").

ghost use Rattle.std.specs.Prelude.{◌≡◌, IfOk};
ghost use Rattle.std.specs.List.{list_any};
ghost use Rattle.thr_syntax.specs.Shared.{is_shared_variable, variables_of};

use sqlite_items::Boxed;
use std::alloc::{AllocError, Global};
use thr_values::number::NameId;

/// A parameter or local of the routine, by its place among them, or a shared variable.
#[derive(Clone, Copy, Debug, PartialEq, Eq)]
pub enum Var {
    Local(u8),
    Shared(NameId),
}

/// An exception by its name, or what the running catch body has caught.
#[derive(Clone, Copy, Debug, PartialEq, Eq)]
pub enum ExcRef {
    Named(NameId),
    This,
}

/// An operator of two operands.
#[derive(Clone, Copy, Debug, PartialEq, Eq)]
pub enum Op {
    Add,
    Sub,
    Mul,
    Div,
    Rem,
    Equal,
    Differs,
    Less,
    AtMost,
    Greater,
    AtLeast,
    And,
    Or,
}

/// An expression.
#[derive(Drop)]
pub enum Expr {
    Num(i64),
    Var(Var),
    /// `self`, the thread's number.
    Me,
    /// `err`, the number of the thread's last reply.
    Err,
    Two(Op, Boxed<Expr>, Boxed<Expr>),
    Not(Boxed<Expr>),
    GetStatus(ExcRef),
    Matches(ExcRef, ExcRef),
}

impl Expr {
    /// Whether a shared variable stands in this expression.
    #[tactic(auto, using(crate::proofs::SharedLaws::reads_shared_laws))]
    pub fn reads_shared(&self) -> bool
        ensures { result ≡ list_any is_shared_variable (variables_of self.now) }
    {
        match self {
            Self::Var(Var::Shared(_)) => true,
            Self::Two(_, a, b) => a.get().reads_shared() || b.get().reads_shared(),
            Self::Not(a) => a.get().reads_shared(),
            _ => false,
        }
    }

    /// An expression that is equal to this one.
    pub fn copy(&self, alloc: Global) -> Result<Expr, AllocError>
        ensures { IfOk result (λ copy. copy ≡ self.now) }
    {
        match self {
            Self::Num(n) => Ok(Self::Num(*n)),
            Self::Var(v) => Ok(Self::Var(*v)),
            Self::Me => Ok(Self::Me),
            Self::Err => Ok(Self::Err),
            Self::Two(op, a, b) => {
                let a = Boxed::new(alloc, a.get().copy(alloc)?)?;
                let b = Boxed::new(alloc, b.get().copy(alloc)?)?;
                Ok(Self::Two(*op, a, b))
            }
            Self::Not(a) => Ok(Self::Not(Boxed::new(alloc, a.get().copy(alloc)?)?)),
            Self::GetStatus(x) => Ok(Self::GetStatus(*x)),
            Self::Matches(x, y) => Ok(Self::Matches(*x, *y)),
        }
    }
}
