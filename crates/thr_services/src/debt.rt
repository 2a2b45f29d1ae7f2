//! What a thread owes.

use thr_values::reply::Reply;

/// What a thread owes, which it makes before everything else: the return of the call that blocked it, the delivery of a
/// cancel, or the running of the once block for which it waited (docs/machine.md, "What threads owe").
#[derive(Clone, Copy, Debug, PartialEq, Eq)]
pub enum Debt {
    Return(Reply),
    Delivery,
    Running,
}
