//! The expressions of calls.
ghost use Rattle.std.specs.Prelude.{◌≡◌};
ghost use Rattle.thr_remainder.specs.Calls.{expressions_of};
ghost use Rattle.thr_asking.specs.Asking.{listed_expressions};

use thr_syntax::dce::DceCall;
use thr_syntax::expr::Expr;

/// The expressions of a call in their order, of which it has two at most.
#[derive(Clone, Copy)]
pub enum Expressions<'a> {
    Nothing,
    One(&'a Expr),
    Two(&'a Expr, &'a Expr),
}

/// The expressions of a call (docs/script.md, "Calls").
#[tactic(auto, using(crate::proofs::PartLaws::named_expressions), unfolding(thr_remainder::specs::Calls::shape_of))]
pub fn expressions_of(call: &DceCall) -> Expressions<'_>
    ensures { listed_expressions result ≡ expressions_of call.now }
{
    match call {
        DceCall::AttrSetprio(_, e)
        | DceCall::AttrSetstacksize(_, e)
        | DceCall::Create(_, _, _, e)
        | DceCall::Join(e, _)
        | DceCall::Detach(e)
        | DceCall::Cancel(e)
        | DceCall::Getprio(e, _)
        | DceCall::Getscheduler(e, _)
        | DceCall::DelayNp(e)
        | DceCall::GetExpirationNp(e, _)
        | DceCall::CondTimedwait(_, _, e)
        | DceCall::Setspecific(_, e)
        | DceCall::Write(_, e) => Expressions::One(e),
        DceCall::Setprio(e, f, _) | DceCall::Setscheduler(e, _, f, _) => Expressions::Two(e, f),
        _ => Expressions::Nothing,
    }
}
