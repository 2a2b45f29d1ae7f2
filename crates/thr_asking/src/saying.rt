//! The lines of calls.
ghost use Rattle.std.specs.Prelude.{◌≡◌};
ghost use Rattle.thr_values.specs.declared.history.What.TheVariants as what;
ghost use Rattle.thr_remainder.specs.Calls.{shape_of, arguments};
ghost use Rattle.thr_services.specs.Answers.{listed};

use crate::places::{first_argument, said_of, second_argument};
use thr_services::answer::Numbers;
use thr_syntax::dce::DceCall;
use thr_values::history::What;
use thr_values::reply::Reply;

/// The line of a call whose expressions have these values (docs/journal.md, "Calls").
pub fn call_line(call: &DceCall, ns: Numbers, reply: Reply) -> What
    ensures { result ≡ what.Call (shape_of call.now).word (arguments call.now (listed ns)) reply }
{
    let said = said_of(call, first_argument(ns), second_argument(ns));
    let args = said.args;
    What::Call {
        call: said.call,
        args,
        reply,
    }
}
