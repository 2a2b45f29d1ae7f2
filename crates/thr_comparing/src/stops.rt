//! Stops of a journal.

ghost use Rattle.std.specs.Prelude.{◌≡◌, ◌≤◌, ◌+◌, ◌&&◌, None, Some, IfSome, if◌then◌else◌};
ghost use Rattle.std.specs.Option.{option_map};
ghost use Rattle.thr_values.specs.declared.event.Stop.TheVariants as stops;
ghost use Rattle.thr_verdict.specs.Verdicts.{Stopped};
ghost use Rattle.thr_verdict.specs.FirstWrong.{is_same_stop, wrong_after};
ghost use Rattle.thr_comparing.specs.Wrongs.{told};

use crate::wrong::{Right, Wrong};
use thr_values::event::Stop;

/// Whether two stops are the same.
fn is_same_stop(a: Stop, b: Stop) -> bool
    ensures { result ≡ is_same_stop a b }
{
    match (a, b) {
        (Stop::Finished, Stop::Finished) => true,
        (Stop::Deadlock(n, t), Stop::Deadlock(m, u)) => n == m && t.0 == u.0,
        (Stop::Limit, Stop::Limit) => true,
        (Stop::Memory, Stop::Memory) => true,
        _ => false,
    }
}

/// What is wrong where this stop holds after so many lines, and the journal stops there or doesn't.
pub fn where_it_holds(holds: Stop, stop: Stop, count: u32, at_end: bool) -> Option<Wrong>
    requires { count ≤ 1001160 }
    ensures wrong { option_map told result ≡ (if at_end && is_same_stop holds stop then None else Some (wrong_after count (Some (Stopped holds)))) }
    ensures placed { IfSome result (λ w. w.place ≡ count + 1) }
{
    if at_end && is_same_stop(holds, stop) {
        return None;
    }
    Some(Wrong {
        place: count + 1,
        right: Some(Right::Stop(holds)),
    })
}

/// What is wrong where no stop holds after so many lines, and the journal stops there.
pub fn stopped_early(stop: Stop, count: u32) -> Option<Wrong>
    requires { count ≤ 1001160 }
    ensures wrong { option_map told result ≡ (if is_same_stop stops.Memory stop then None else Some (wrong_after count None)) }
    ensures placed { IfSome result (λ w. w.place ≡ count + 1) }
{
    if is_same_stop(Stop::Memory, stop) {
        return None;
    }
    Some(Wrong {
        place: count + 1,
        right: None,
    })
}
