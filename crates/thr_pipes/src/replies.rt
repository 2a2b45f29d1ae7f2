//! What calls on pipes reply.
ghost use Rattle.std.specs.Prelude.{◌≡◌};
ghost use Rattle.thr_parts.specs.Replies.{is_blocks, is_value};

use thr_values::reply::Reply;

/// The reply is a number.
pub fn is_value(said: Reply) -> bool
    ensures { result ≡ is_value said }
{
    match said {
        Reply::Value(_) => true,
        _ => false,
    }
}

/// The reply is that the caller waits.
pub fn is_blocks(said: Reply) -> bool
    ensures { result ≡ is_blocks said }
{
    match said {
        Reply::Blocks => true,
        _ => false,
    }
}
