//! What a call is answered.
ghost use Rattle.std.specs.Prelude.{◌≡◌};
ghost use Rattle.thr_model.specs.Calls.{first, second};
ghost use Rattle.thr_services.specs.Answers.{plain, listed};

use thr_values::number::{NameId, Tid};
use thr_values::reply::Reply;

/// What a call replies, whether its caller is to run the routine of a once block, and for a thread that it made the routine
/// and the argument with which that begins (docs/machine.md, "Calls").
#[derive(Clone, Copy, Debug, PartialEq, Eq)]
pub struct Answer {
    pub reply: Reply,
    pub runs: bool,
    pub begins: Option<(Tid, NameId, i64)>,
}

/// The reply alone.
pub fn plain(reply: Reply) -> Answer
    ensures { result ≡ plain reply }
{
    Answer {
        reply,
        runs: false,
        begins: None,
    }
}

/// The values of the expressions of a call, of which it has two at most.
#[derive(Clone, Copy, Debug, PartialEq, Eq)]
pub enum Numbers {
    Nothing,
    One(i64),
    Two(i64, i64),
}

/// The value of the first expression, or 0.
pub fn first(ns: Numbers) -> i64
    ensures { result ≡ first (listed ns) }
{
    match ns {
        Numbers::Nothing => 0,
        Numbers::One(n) => n,
        Numbers::Two(n, _) => n,
    }
}

/// The value of the second expression, or 0.
pub fn second(ns: Numbers) -> i64
    ensures { result ≡ second (listed ns) }
{
    match ns {
        Numbers::Nothing => 0,
        Numbers::One(_) => 0,
        Numbers::Two(_, n) => n,
    }
}
