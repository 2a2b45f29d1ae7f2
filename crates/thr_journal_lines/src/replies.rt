//! Replies.

ghost use Rattle.std.specs.Prelude.{◌≡◌};
ghost use Rattle.std.specs.Option.{option_map};
ghost use Rattle.thr_journals.specs.Fields.{reply_in, equals_reply};

use crate::number::value_of;
use crate::words::Words;
use thr_journals::texts::fixed_reply_in;
use thr_values::reply::Reply;

/// A reply.
fn reply_in(text: &[u8]) -> Option<Reply>
    ensures { result ≡ reply_in text.now }
{
    match fixed_reply_in(text) {
        Some(reply) => Some(reply),
        None => value_of(text).map(|n| Reply::Value(n)),
    }
}

/// The word `=` and a reply.
pub(crate) fn equals_reply(words: &mut Words) -> Option<Reply>
    ensures { equals_reply words.old ≡ option_map (λ r. (r, words.new)) result }
{
    let text = words.next()?;
    if text != b"=".as_slice() {
        return None;
    }
    let reply = words.next()?;
    reply_in(reply)
}
