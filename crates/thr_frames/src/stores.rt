//! What calls store.

use thr_syntax::expr::Var;

/// What a call stores of its reply: variables with their values, in this order (docs/machine.md, "Replies").
#[derive(Clone, Copy)]
pub enum Stores {
    Nothing,
    One(Var, i64),
    Two(Var, i64, Var, i64),
}
