//! What replies say.
ghost use Rattle.std.specs.Prelude.{◌≡◌, false, true, None, IfSome};
ghost use Rattle.thr_values.specs.declared.reply.Effect.TheVariants as effect;
ghost use Rattle.thr_values.specs.declared.reply.Reply.TheVariants as reply;
ghost use Rattle.thr_parts.specs.Replies.{is_done, is_blocks, is_value};
ghost use Rattle.thr_services.specs.Cancelling.{is_wakes};

use thr_values::reply::{Effect, Reply};

/// The reply is that the caller waits.
pub fn is_blocks(said: Reply) -> bool
    ensures { result ≡ is_blocks said }
{
    match said {
        Reply::Blocks => true,
        _ => false,
    }
}

/// The reply is `ok`.
pub fn is_done(said: Reply) -> bool
    ensures { result ≡ is_done said }
{
    match said {
        Reply::Done => true,
        _ => false,
    }
}

/// The reply is a number.
pub fn is_value(said: Reply) -> bool
    ensures { result ≡ is_value said }
{
    match said {
        Reply::Value(_) => true,
        _ => false,
    }
}

/// The number that is replied, where it is one.
pub fn value_in(said: Reply) -> Option<i64>
    ensures value { IfSome result (λ n. said ≡ reply.Value n) }
    ensures other { result ≡ None → is_value said ≡ false }
{
    match said {
        Reply::Value(n) => Some(n),
        _ => None,
    }
}

/// The reply is that a cancel ends the thread's wait.
pub fn is_wakes(said: Reply) -> bool
    ensures { result ≡ is_wakes said }
{
    match said {
        Reply::Effect(effect) => match effect {
            Effect::Wakes => true,
            _ => false,
        },
        _ => false,
    }
}
