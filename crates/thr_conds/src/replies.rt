//! What waits on conditions reply.
ghost use Rattle.std.specs.Prelude.{◌≡◌, true};
ghost use Rattle.thr_parts.specs.Replies.{is_blocks};
ghost use Rattle.thr_parts.specs.Locking.{is_held_by, is_last};
ghost use Rattle.thr_parts.specs.Conditions.{timedwait_reply};

use thr_parts::mutex::Held;
use thr_values::number::Tid;
use thr_values::reply::Reply;

/// The thread owns what is so owned.
pub fn is_held_by(held: Option<Held>, t: Tid) -> bool
    ensures { result ≡ is_held_by held t }
{
    match held {
        None => false,
        Some(held) => held.owner.0 == t.0,
    }
}

/// It is locked once at most.
#[tactic(auto, using(std::proofs::lemmas::Bool::Decides::nat_tests))]
pub fn is_last(held: Option<Held>) -> bool
    ensures { result ≡ is_last held }
{
    match held {
        None => true,
        Some(held) => held.depth <= 1,
    }
}

/// The reply is that the caller waits.
pub fn is_blocks(said: Reply) -> bool
    ensures { result ≡ is_blocks said }
{
    match said {
        Reply::Blocks => true,
        _ => false,
    }
}

/// What a timed wait replies where a wait replies this and its time is past or isn't.
pub fn timedwait_reply(said: Reply, is_past: bool) -> Reply
    ensures reply { result ≡ timedwait_reply said is_past }
    ensures waits { is_blocks result ≡ true → is_blocks said ≡ true }
{
    if is_past && is_blocks(said) {
        return Reply::Eagain;
    }
    said
}
