//! The fixed words of lines as texts.

ghost use Rattle.std.specs.Prelude.{◌≡◌};
ghost use Rattle.thr_values.specs.Words as fixed;
ghost use Rattle.thr_syntax.specs.Spelling as spelling;

use thr_syntax::expr::Op;
use thr_syntax::tree::Interface;
use thr_values::reply::Kind;
use thr_values::scheduling::Policy;

/// The word of an operator (docs/script.md, "Expressions").
pub fn operator_text(op: Op) -> &'static [u8]
    ensures { result.now ≡ spelling.operator_word op }
{
    match op {
        Op::Add => b"+",
        Op::Sub => b"-",
        Op::Mul => b"*",
        Op::Div => b"/",
        Op::Rem => b"%",
        Op::Equal => b"==",
        Op::Differs => b"!=",
        Op::Less => b"<",
        Op::AtMost => b"<=",
        Op::Greater => b">",
        Op::AtLeast => b">=",
        Op::And => b"and",
        Op::Or => b"or",
    }
}

/// The word of an interface (docs/script.md, "Lines").
pub fn interface_text(interface: Interface) -> &'static [u8]
    ensures { result.now ≡ spelling.interface_word interface }
{
    match interface {
        Interface::Exc => b"exc",
        Interface::Status => b"status",
    }
}

/// The word of a policy (docs/script.md, "Calls").
pub fn policy_text(policy: Policy) -> &'static [u8]
    ensures { result.now ≡ fixed.policy_word policy }
{
    match policy {
        Policy::Fifo => b"SCHED_FIFO",
        Policy::Rr => b"SCHED_RR",
        Policy::Fg => b"SCHED_FG_NP",
        Policy::Bg => b"SCHED_BG_NP",
    }
}

/// The word of a kind of mutexes (docs/script.md, "Calls").
pub fn kind_text(kind: Kind) -> &'static [u8]
    ensures { result.now ≡ fixed.kind_word kind }
{
    match kind {
        Kind::Fast => b"MUTEX_FAST_NP",
        Kind::Recursive => b"MUTEX_RECURSIVE_NP",
        Kind::Nonrecursive => b"MUTEX_NONRECURSIVE_NP",
    }
}

/// The word for taking policy and priority from the maker, or not (docs/script.md, "Calls").
pub fn inherit_text(inherits: bool) -> &'static [u8]
    ensures { result.now ≡ fixed.inherit_word inherits }
{
    if inherits {
        b"PTHREAD_INHERIT_SCHED"
    } else {
        b"PTHREAD_DEFAULT_SCHED"
    }
}

/// The word for a cancelability that is on or off (docs/script.md, "Calls").
pub fn cancel_text(on: bool) -> &'static [u8]
    ensures { result.now ≡ fixed.cancel_word on }
{
    if on { b"CANCEL_ON" } else { b"CANCEL_OFF" }
}
