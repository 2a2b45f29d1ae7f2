//! What a thread asks with.
ghost use Rattle.std.specs.Prelude.{◌≡◌, ◌≢◌, ◌&&◌, not, true, [], Ok, IfOk};
ghost use Rattle.thr_syntax.specs.declared.tree.Script.{Script};
ghost use Rattle.thr_remainder.specs.Calls.{expressions_of};
ghost use Rattle.thr_remainder.specs.Remainders.{has_room};
ghost use Rattle.thr_remainder.specs.Replies.{value_then, values_of, needs_two_frames, asked};
ghost use Rattle.thr_stack.specs.Sights.{shared_of};
ghost use Rattle.thr_frames.specs.Stacks.{remainder_of, setting_of, IsStack};
ghost use Rattle.thr_asking.specs.Asking.{listed_values};

use crate::expressions::{Expressions, expressions_of};
use thr_frames::stack::{Env, Stack};
use thr_lines::lines::Lines;
use thr_services::answer::Numbers;
use thr_syntax::dce::DceCall;
use thr_values::exception::{Exc, STACKOVF_E};

/// A value alone, or its fault.
fn one(value: Result<i64, Exc>) -> Result<Numbers, Exc>
    ensures { listed_values result ≡ value_then value (Ok []) }
{
    match value {
        Ok(n) => Ok(Numbers::One(n)),
        Err(x) => Err(x),
    }
}

/// Two values, or the first fault from the left.
fn two(first: Result<i64, Exc>, second: Result<i64, Exc>) -> Result<Numbers, Exc>
    ensures { listed_values result ≡ value_then first (value_then second (Ok [])) }
{
    match (first, second) {
        (Err(x), _) => Err(x),
        (Ok(_), Err(x)) => Err(x),
        (Ok(n), Ok(k)) => Ok(Numbers::Two(n, k)),
    }
}

/// The values of a call's expressions, or the first fault from the left.
fn values_of(lines: &Lines, stack: &Stack, call: &DceCall, env: &Env) -> Result<Numbers, Exc>
    requires stack { IsStack lines.now stack.now }
    requires some { (remainder_of lines.now stack.now).items ≢ [] }
    ensures { listed_values result ≡ values_of (setting_of lines.now stack.now) (shared_of env.now.shared.now) (remainder_of lines.now stack.now) (expressions_of call.now) }
{
    match expressions_of(call) {
        Expressions::Nothing => Ok(Numbers::Nothing),
        Expressions::One(e) => one(stack.value(lines, e, env)),
        Expressions::Two(e, f) => two(stack.value(lines, e, env), stack.value(lines, f, env)),
    }
}

/// Whether a call needs two free frames.
fn needs_two_frames(call: &DceCall) -> bool
    ensures { result ≡ needs_two_frames call.now }
{
    matches!(call, DceCall::Once(_, _))
}

/// Whether a call needs two free frames and there are fewer.
fn lacks_frames(stack: &Stack, call: &DceCall) -> bool
    ensures { (s : Script) → result ≡ (needs_two_frames call.now && not (has_room (setting_of s stack.now) (remainder_of s stack.now) 2)) }
{
    needs_two_frames(call) && stack.free() < 2
}

/// The values with which a thread asks this call where it stands, or what is raised in their place: the first fault of its
/// expressions from the left, and `stackovf_e` of `pthread_once` where there aren't two free frames (docs/machine.md, "Replies").
pub fn asked(lines: &Lines, stack: &Stack, call: &DceCall, env: &Env) -> Result<Numbers, Exc>
    requires stack { IsStack lines.now stack.now }
    requires some { (remainder_of lines.now stack.now).items ≢ [] }
    ensures values { listed_values result ≡ asked (setting_of lines.now stack.now) (shared_of env.now.shared.now) call.now (remainder_of lines.now stack.now) }
    ensures room { IfOk result (λ ns. needs_two_frames call.now ≡ true → has_room (setting_of lines.now stack.now) (remainder_of lines.now stack.now) 2 ≡ true) }
{
    if lacks_frames(stack, call) {
        return Err(STACKOVF_E);
    }
    values_of(lines, stack, call, env)
}
