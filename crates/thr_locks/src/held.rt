//! Who owns what, and what a lock replies.
ghost use Rattle.std.specs.Prelude.{◌≡◌, ◌+◌, ◌<◌, ◌^◌, IfSome};
ghost use Rattle.thr_parts.specs.Mutexes.{waiters_row};
ghost use Rattle.thr_parts.specs.Locking.{relock_reply, held_reply, taken, one_less, owned_by};

use thr_parts::mutex::Held;
use thr_parts::row::RowId;
use thr_values::number::{NameId, Tid};
use thr_values::reply::{Kind, Reply};

/// What a second lock by the owner replies.
fn relock_reply(kind: Kind) -> Reply
    ensures { result ≡ relock_reply kind }
{
    match kind {
        Kind::Fast => Reply::Blocks,
        Kind::Recursive => Reply::Done,
        Kind::Nonrecursive => Reply::Edeadlk,
    }
}

/// What a lock replies, of this kind and so owned.
pub fn held_reply(kind: Kind, held: Option<Held>, t: Tid) -> Reply
    ensures { result ≡ held_reply kind held t }
{
    match held {
        None => Reply::Done,
        Some(held) => {
            if held.owner.0 == t.0 {
                relock_reply(kind)
            } else {
                Reply::Blocks
            }
        }
    }
}

/// Once more locked, by this thread.
pub fn taken(held: Option<Held>, t: Tid) -> Held
    requires { IfSome held (λ h. h.depth + 1 < 2 ^ 64) }
    ensures { result ≡ taken held t }
{
    match held {
        None => owned_by(t),
        Some(held) => Held {
            owner: t,
            depth: held.depth + 1,
        },
    }
}

/// Once less locked.
pub fn one_less(held: Held) -> Held
    requires { 1 < held.depth }
    ensures { result ≡ one_less held }
{
    Held {
        owner: held.owner,
        depth: held.depth - 1,
    }
}

/// Locked once by this thread.
pub fn owned_by(t: Tid) -> Held
    ensures { result ≡ owned_by t }
{
    Held { owner: t, depth: 1 }
}

/// The row of those that wait for it.
pub fn waiters_row(m: Option<NameId>) -> RowId
    ensures { result ≡ waiters_row m }
{
    match m {
        None => RowId::Global,
        Some(m) => RowId::Mutex(m),
    }
}
