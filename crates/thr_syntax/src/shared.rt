//! Which statements are shared.

ghost use Rattle.std.specs.Prelude.{◌≡◌};
ghost use Rattle.thr_syntax.specs.Shared.{is_shared};

use crate::expr::Var;
use crate::tree::Stmt;

/// Whether a statement is a shared step of its turn (docs/machine.md, "Turns"): `say`, a call of the thread service, or a
/// statement that reads or writes a shared variable.
pub fn is_shared(stmt: &Stmt) -> bool
    ensures { result ≡ is_shared stmt.now }
{
    match stmt {
        Stmt::Say(_) | Stmt::Dce(_) | Stmt::Set(Var::Shared(_), _) => true,
        Stmt::Set(Var::Local(_), e)
        | Stmt::If(e, _, _)
        | Stmt::While(e, _)
        | Stmt::Call(_, e, _)
        | Stmt::Return(e)
        | Stmt::Exit(e) => e.reads_shared(),
        Stmt::TryCatch(_, _) | Stmt::TryFinally(_, _) | Stmt::Raise(_) | Stmt::Reraise => false,
    }
}
